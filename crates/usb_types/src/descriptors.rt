// descriptors.rs: the type and class numbers that the driver decides on.
ghost use Rattle.std.specs.Prelude.{◌≡◌};
ghost use Rattle.usb_types.specs.Descriptors.{kind_of, is_hub_class};

// bDescriptorType, USB 2.0 tables 9-5 and 11-13. Numbers: a descriptor read takes each u8, and an enum would take fewer.
pub const DEVICE_DESCRIPTOR: u8 = 1;

pub const CONFIGURATION_DESCRIPTOR: u8 = 2;

pub const HUB_DESCRIPTOR: u8 = 41;

// What the configuration walk does with a descriptor.
#[derive(Clone, Copy)]
pub enum DescriptorKind {
    Interface,
    Endpoint,
    Other,
}

// By bDescriptorType, USB 2.0 table 9-5.
impl From<u8> for DescriptorKind {
    ghost from_gives = { λ number r. r ≡ kind_of number };

    #[tactic(auto, unfolding(crate::specs::Descriptors::kind_of))]
    fn from(number: u8) -> DescriptorKind {
        match number {
            4 => DescriptorKind::Interface,
            5 => DescriptorKind::Endpoint,
            0..=3 | 6..=255 => DescriptorKind::Other,
        }
    }
}

// bInterfaceClass is that of a hub, USB 2.0 11.23.1. A match, as document 01 has codes decided.
#[tactic(auto, unfolding(crate::specs::Descriptors::is_hub_class))]
pub fn is_hub_class(class: u8) -> bool
    ensures { result ≡ is_hub_class class }
{
    matches!(class, 9)
}
