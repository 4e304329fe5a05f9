/// The texts that choose what is served of a history, each where it is given.
#[derive(Clone, Copy, Debug)]
pub struct Texts<'a> {
    /// The release that is emulated, `1.k`.
    pub emulated: Option<&'a str>,
    /// The minimum compatibility: the earliest release that may open the store.
    pub least: Option<&'a str>,
    /// The feature gates, as `Name=true,Other=false`.
    pub features: Option<&'a str>,
    /// The runtime configuration, as `api/beta=false,demo.example/v1=true`.
    pub runtime: Option<&'a str>,
}
