use minor_version::Minor;
use release_view::View;

/// What a server is, whatever it keeps: the view of the release that it emulates, the release of its
/// binary, and its minimum compatibility.
#[derive(Debug, Drop)]
pub struct Machine {
    pub view: View,
    pub release: Minor,
    pub back: Minor,
}
