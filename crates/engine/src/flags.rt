// What an interface can do and how it stands, as SIOCGIFFLAGS has it: document 01, 'Links and addresses'.
// The contracts cite specs/Flags.antt.
ghost use Rattle.std.specs.Prelude.{◌≡◌};
ghost use Rattle.engine.specs.Flags.{contains, is_up, is_multicast};

// A host hands in the bits as its kernel has them.
#[derive(Clone, Copy)]
pub struct Flags(pub u32);

impl Flags {
    // The interface is enabled.
    pub const UP: Flags = Flags(0x1);

    // It is operational.
    pub const RUNNING: Flags = Flags(0x40);

    // It can send to a group.
    pub const MULTICAST: Flags = Flags(0x1000);

    // Whether all of some flags are set.
    pub fn contains(self, other: Flags) -> bool
        ensures { result ≡ contains self.0 other.0 }
    {
        self.0 & other.0 == other.0
    }

    // Up means UP and RUNNING both.
    pub fn is_up(self) -> bool
        ensures { result ≡ is_up self.0 }
    {
        self.contains(Flags::UP) & self.contains(Flags::RUNNING)
    }

    pub fn is_multicast(self) -> bool
        ensures { result ≡ is_multicast self.0 }
    {
        self.contains(Flags::MULTICAST)
    }
}
