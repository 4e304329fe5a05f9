//! Laws of workloads, each as the contract of a function that does nothing.
ghost use Rattle.workload.specs.Whole.{ComeWhole};
ghost use Rattle.workload.specs.Workload.{HasOneWorkload};

use release_view::View;

/// A view, a seed and a size have one script.
pub fn workload_is_one(view: &View, seed: u64, size: u32)
    ensures { HasOneWorkload view.now seed size }
{}

/// However requests are cut, each connection brings its own whole, in order.
pub fn requests_come_whole(view: &View, seed: u64, size: u32)
    ensures { ComeWhole view.now seed size }
{}
