// What a pass over the bytes of a field Host shows.
ghost use Rattle.std.specs.Prelude.{◌≡◌};
ghost use Rattle.req_head.specs.HostBytes.{IsLookedAt, kind_of};
ghost use Rattle.req_head.specs.Known.{first_of};

use crate::known::Values;

/// What is known of the bytes of a host.
#[derive(Clone, Copy)]
pub(crate) struct HostBytes {
    /// There is one that no host has.
    pub bad: bool,
    /// They are a name as it is answered: in lower case, without a port.
    pub plain: bool,
}

// `2` for the bytes that no host has, `1` for capital letters, `:` and `]`, `0` for the others.
static KINDS: [u8; 256] = *b"\
    22222222222222222222222222222222\
    20000000000000020000000000100000\
    01111111111111111111111111100100\
    00000000000000000000000000000002\
    22222222222222222222222222222222\
    22222222222222222222222222222222\
    22222222222222222222222222222222\
    22222222222222222222222222222222";

/// Which of the three a byte is.
#[inline(always)]
fn kind_of(byte: u8) -> u8
    ensures { result ≡ kind_of byte }
{
    KINDS[byte as usize]
}

/// What the bytes are, without a branch for any of them.
#[inline(always)]
fn look_at(host: &[u8]) -> HostBytes
    ensures { IsLookedAt host.now result }
{
    let mut kinds = b'0';
    for byte in host {
        kinds |= kind_of(*byte);
    }
    HostBytes {
        bad: kinds > b'1',
        plain: kinds == b'0',
    }
}

/// The first value of the field Host, or no bytes.
pub(crate) fn host_field(host: Values<'_>) -> &[u8]
    ensures { result.now ≡ first_of host.entry }
{
    match host {
        Values::Nothing => &[],
        Values::One(first) => first,
        Values::Many(first) => first,
    }
}

/// What its bytes are.
#[inline(always)]
pub(crate) fn host_bytes(host: Values<'_>) -> HostBytes
    ensures { IsLookedAt (first_of host.entry) result }
{
    look_at(host_field(host))
}
