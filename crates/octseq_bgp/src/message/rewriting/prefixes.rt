//! Prefixes that are written anew: RFC 4271, 4.3.
ghost use Rattle.std.specs.Prelude.{◌≡◌, ◌≤◌, ◌+◌, length};
ghost use Rattle.octseq.specs.Limit.{IsWithin};
ghost use Rattle.octseq_bgp.specs.Lists.{nlri_of, prefixes_left};
ghost use Rattle.octseq_bgp.specs.Puts.{AppendsSomeUnlimited};
ghost use Rattle.octseq_bgp.specs.Rewritten.{AreFew, prefix_anew, prefixes_anew};
ghost use Rattle.octseq_bgp.specs.Written.{prefix_octets, prefixes_octets};

use crate::message::update_builder::prefix_octets::{PrefixOctets, octets_of_bits};
use crate::prefix::{Nlri, Prefixes};
use crate::put::put_slice;
use octseq::{AsOctets, OctetsBuilder};
use std::alloc::AllocError;

/// Returns the number of octets of a prefix.
fn prefix_len<R: AsOctets + Copy>(nlri: &Nlri<R>) -> usize
    ensures { result ≡ length (prefix_octets (prefix_anew (nlri_of nlri.now))) }
{
    let len = octets_of_bits(nlri.len);
    match nlri.path_id {
        Some(_) => 5 + len,
        None => 1 + len,
    }
}

/// Returns the number of octets of prefixes.
pub(super) fn prefixes_len<R: AsOctets + Copy>(prefixes: Prefixes<R>) -> usize
    requires { length (prefixes_octets (prefixes_anew (prefixes_left prefixes))) ≤ 65535 }
    ensures { result ≡ length (prefixes_octets (prefixes_anew (prefixes_left prefixes))) }
{
    let mut len = 0;
    for nlri in prefixes {
        len += prefix_len(&nlri);
    }
    len
}

/// Appends a prefix.
fn put_prefix<R: AsOctets + Copy, B: OctetsBuilder>(
    builder: &mut B,
    nlri: &Nlri<R>,
) -> Result<(), AllocError>
    requires bits { nlri.now.len ≤ 128 }
    requires within { IsWithin B.limit (length (B.content builder.old)
        + length (prefix_octets (prefix_anew (nlri_of nlri.now)))) }
    ensures puts { AppendsSomeUnlimited B.asks result (prefix_octets (prefix_anew (nlri_of nlri.now)))
        (B.content builder.old) (B.content builder.new) }
    ensures borrows { B.borrows builder.new ≡ B.borrows builder.old }
{
    let prefix = nlri.prefix();
    let octets = PrefixOctets::new(&prefix, nlri.path_id);
    put_slice(builder, octets.as_slice())
}

/// Appends prefixes.
pub(super) fn put_prefixes<R: AsOctets + Copy, B: OctetsBuilder>(
    builder: &mut B,
    prefixes: Prefixes<R>,
) -> Result<(), AllocError>
    requires few { AreFew (prefixes_left prefixes) }
    requires within { IsWithin B.limit (length (B.content builder.old)
        + length (prefixes_octets (prefixes_anew (prefixes_left prefixes)))) }
    ensures puts { AppendsSomeUnlimited B.asks result (prefixes_octets (prefixes_anew (prefixes_left prefixes)))
        (B.content builder.old) (B.content builder.new) }
    ensures borrows { B.borrows builder.new ≡ B.borrows builder.old }
{
    let mut ahead = prefixes;
    'prefixes: while let Some(nlri) = ahead.next() {
        put_prefix(builder, &nlri)?;
    }
    Ok(())
}
