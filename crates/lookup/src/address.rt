// An address of either kind.
ghost use Rattle.std.specs.Prelude.{◌≡◌};
ghost use Rattle.lookup.specs.Fecs.{of_ipv4, of_ipv6};

#[derive(Clone, Copy)]
pub struct Ipv4 {
    pub bits: u32,
}

// The first 64 bits and the last 64 bits.
#[derive(Clone, Copy)]
pub struct Ipv6 {
    pub high: u64,
    pub low: u64,
}

#[derive(Clone, Copy)]
pub enum Address {
    V4(Ipv4),
    V6(Ipv6),
}

// Named constructors, and no From<u32>: the name of the kind stands at each call, where a bare number would not show it.
impl Address {
    pub fn ipv4(bits: u32) -> Address
        ensures { result ≡ of_ipv4 bits }
    {
        Address::V4(Ipv4 { bits })
    }

    pub fn ipv6(high: u64, low: u64) -> Address
        ensures { result ≡ of_ipv6 high low }
    {
        Address::V6(Ipv6 { high, low })
    }
}
