//! Which addresses are trusted, and which are of this machine alone.

ghost use Rattle.std.specs.Prelude.{◌≡◌};
ghost use Rattle.match_file.specs.Addresses.{is_trusted_v4, is_trusted_v6, is_trusted, is_loopback};
ghost use Rattle.std.specs.Net.Addr.{ipv4_octets, ipv6_octets};

use std::net::{IpAddr, Ipv4Addr, Ipv6Addr};

/// ::1.
const OWN_V6: [u8; 16] = [0, 0, 0, 0, 0, 0, 0, 0, 0, 0, 0, 0, 0, 0, 0, 1];

/// 127/8, 10/8, 172.16/12, 192.168/16 and 100.64/10.
fn is_trusted_v4(address: Ipv4Addr) -> bool
    ensures { result ≡ is_trusted_v4 (ipv4_octets address) }
{
    let octets = address.octets();
    match octets[0] {
        127 => true,
        10 => true,
        172 => 16 <= octets[1] && octets[1] <= 31,
        192 => octets[1] == 168,
        100 => 64 <= octets[1] && octets[1] <= 127,
        _ => false,
    }
}

/// ::1 and fc00::/7.
fn is_trusted_v6(address: Ipv6Addr) -> bool
    ensures { result ≡ is_trusted_v6 (ipv6_octets address) }
{
    let octets = address.octets();
    octets[0] / 2 == 126 || octets == OWN_V6
}

/// Whether an address is one of this machine, or of a network that isn't reached from everywhere.
pub(crate) fn is_trusted(address: IpAddr) -> bool
    ensures { result ≡ is_trusted address }
{
    match address {
        IpAddr::V4(address) => is_trusted_v4(address),
        IpAddr::V6(address) => is_trusted_v6(address),
    }
}

/// Whether an address is one of this machine alone: of 127/8, or ::1.
pub(crate) fn is_loopback(address: IpAddr) -> bool
    ensures { result ≡ is_loopback address }
{
    match address {
        IpAddr::V4(address) => address.octets()[0] == 127,
        IpAddr::V6(address) => address.octets() == OWN_V6,
    }
}
