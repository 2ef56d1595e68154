//! What a world tells of itself.
ghost use Rattle.std.specs.Prelude.{◌≡◌};
ghost use Rattle.host_world.specs.Shown.{shown_world, digests_of, requests_of, settings_of};

use crate::world::World;
use script_text::Requests;
use shipped_host::Settings;

impl<'a, D> World<'a, D> {
    /// What its workers are asked.
    pub fn requests(&self) -> &'a Requests
        ensures value { result.now ≡ requests_of self.now }
    {
        self.requests
    }

    /// The digests of its texts.
    pub fn digests(&self) -> &'a D
        ensures value { result.now ≡ digests_of self.now }
    {
        self.d
    }

    /// The numbers of its host.
    pub fn settings(&self) -> Settings
        ensures value { result ≡ settings_of self.now }
    {
        self.settings
    }

    /// The number of its phase, from 0.
    pub fn phase(&self) -> usize
        ensures value { result ≡ (shown_world self.now).phase }
    {
        self.phase
    }
}
