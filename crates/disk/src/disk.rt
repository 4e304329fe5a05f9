ghost use Rattle.std.specs.Prelude.{◌≡◌, ◌⊎◌, ◌+◌, ◌-◌, ◌≤◌, ◌<◌, ◌^◌, List, ℕ, length, IsErr, OnOk, OnErr, IfOk, take, drop};
ghost use Rattle.disk.specs.Beside.{Beside};
ghost use Rattle.disk.specs.Calls.{Spares};
ghost use Rattle.disk.specs.Images.{Pending, Images, IsImage, Each, IsStill, Within, Becomes, OthersHold, OthersWithin, resting, after_write, after_cut, at_file, patched, end_of_lengths};
ghost use Rattle.disk.specs.Moments.{Moments, Ticks, Unchanged};
ghost use Rattle.disk.specs.declared.file.File.{File};

use crate::failed::Failed;
use crate::file::File;

/// Three files, of which a stop at any moment may leave more or less of what isn't synced. A call answers `Failed` only
/// where the count of faults rose in it. What is said of content holds of a disk that tells it.
pub trait Disk {
    /// How many calls failed. A `u64` that never falls.
    ghost faults: { Self → ℕ };

    /// The present moment.
    ghost clock: { Self → ℕ };

    /// Whether disks of this type tell their content.
    ghost tells: { Type 0 };

    /// The bytes that a read gives.
    ghost held: { Self → Images };

    /// What was done to each file since its last good sync.
    ghost pending: { Self → File → Pending };

    /// What a stop at a moment may leave of the three files.
    ghost may_leave: { Self → ℕ → Images → Type 0 };

    /// What lies beside the disk.
    ghost beside: { Self → Beside };

    /// The length of the file.
    fn len(&mut self, file: File) -> Result<u64, Failed>
        ensures len { tells → IfOk result (λ n. n ≡ length (held self.old file)) }
        ensures short { IfOk result (λ n. n < end_of_lengths) }
        ensures same { tells → Unchanged clock may_leave held pending self.old self.new }
        ensures clock { clock self.new ≡ clock self.old }
        ensures spares { Spares beside faults self.old self.new (IsErr result) };

    /// Fills `into` with the bytes of the file from `at` on. After `Failed` the content of `into` is unknown.
    fn read_at(&mut self, file: File, at: u64, into: &mut [u8]) -> Result<(), Failed>
        requires { tells → at + length into.old ≤ length (held self.old file) }
        ensures bytes { tells → OnOk result (into.new
            ≡ take (length into.old) (drop at (held self.old file))) }
        ensures same { tells → Unchanged clock may_leave held pending self.old self.new }
        ensures clock { clock self.new ≡ clock self.old }
        ensures spares { Spares beside faults self.old self.new (IsErr result) };

    /// Puts the bytes into the file at `at`. After `Failed` the range holds any bytes, and the length is between the old
    /// one and the one that `Ok` would give. A write that would reach the end of lengths fails and leaves the content.
    fn write_at(&mut self, file: File, at: u64, bytes: &[u8]) -> Result<(), Failed>
        requires { tells → at ≤ length (held self.old file) }
        ensures written { tells → OnOk result (held self.new file
            ≡ patched (held self.old file) at bytes.now) }
        ensures short { OnOk result (at + length bytes.now < end_of_lengths) }
        ensures failed { tells → OnErr result
            (IsImage (after_write at (length bytes.now) (resting (held self.old file))) (held self.new file)) }
        ensures too_far { tells → end_of_lengths ≤ at + length bytes.now → held self.new file
            ≡ held self.old file }
        ensures others { tells → OthersHold file (held self.old) (held self.new) }
        ensures pending { tells → Becomes file (after_write at (length bytes.now)) (pending self.old) (pending self.new) }
        ensures time { tells → Moments clock may_leave self.old self.new
            (λ _. Each (at_file file (after_write at (length bytes.now)) (pending self.old))) }
        ensures clock { Ticks (clock self.old) (clock self.new) result }
        ensures at_end { tells → clock self.old ≡ 2 ^ 64 - 1
            → Unchanged clock may_leave held pending self.old self.new }
        ensures spares { Spares beside faults self.old self.new (IsErr result) };

    /// Shortens the file. After `Failed` it is as it was or shortened.
    fn cut(&mut self, file: File, to: u64) -> Result<(), Failed>
        requires { tells → to ≤ length (held self.old file) }
        ensures shortened { tells → OnOk result (held self.new file ≡ take to (held self.old file)) }
        ensures failed { tells → OnErr result ((held self.new file ≡ held self.old file)
            ⊎ (held self.new file ≡ take to (held self.old file))) }
        ensures others { tells → OthersHold file (held self.old) (held self.new) }
        ensures pending { tells → Becomes file (after_cut to) (pending self.old) (pending self.new) }
        ensures time { tells → Moments clock may_leave self.old self.new
            (λ _. Each (at_file file (after_cut to) (pending self.old))) }
        ensures clock { Ticks (clock self.old) (clock self.new) result }
        ensures at_end { tells → clock self.old ≡ 2 ^ 64 - 1
            → Unchanged clock may_leave held pending self.old self.new }
        ensures spares { Spares beside faults self.old self.new (IsErr result) };

    /// Makes the file still. After `Failed` what was pending is pending.
    fn sync(&mut self, file: File) -> Result<(), Failed>
        ensures still { tells → OnOk result (IsStill (held self.new) (pending self.new) file) }
        ensures held { tells → held self.new ≡ held self.old }
        ensures failed { tells → OnErr result (Within (pending self.new file) (pending self.old file)) }
        ensures others { tells → OthersWithin file (pending self.old) (pending self.new) }
        ensures time { tells → Moments clock may_leave self.old self.new
            (λ _. Each (pending self.old)) }
        ensures clock { Ticks (clock self.old) (clock self.new) result }
        ensures at_end { tells → clock self.old ≡ 2 ^ 64 - 1
            → Unchanged clock may_leave held pending self.old self.new }
        ensures spares { Spares beside faults self.old self.new (IsErr result) };

    /// Each image of the present is one of those that the model describes.
    ghost images_now: { (d : Self) (images : Images) → tells → may_leave d (clock d) images → Each (pending d) images };

    /// What a disk reads as is an image of the present.
    ghost held_now: { (d : Self) → tells → may_leave d (clock d) (held d) };
}
