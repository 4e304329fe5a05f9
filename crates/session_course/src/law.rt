//! What follows from the definitions, each law as the contract of a function that does nothing.
ghost use Rattle.session_course.specs.Laws.{CoursesJoin};

use disk::Disk;

/// A course, and then another from where it ended, are one of both's turns.
pub fn courses_are_joined<D: Disk>()
    ensures { CoursesJoin D.clock D.may_leave D.beside }
{}
