//! Seven tasks, a few lines each. `docs/CALLING.md` shows them, and what they print.

mod bgp_read;
mod bgp_written;
mod dns_read;
mod dns_written;
mod fixed_buffer;
mod format;
mod text;

use octseq_bgp::family::Afi;
use octseq_bgp::prefix::Prefix;
use std::alloc::Global;

/// Prints what the tasks return.
pub fn print_tasks(rt: &impl Print, alloc: Global) -> anyhow::Result<()> {
    println!(rt;
        "{:?}",
        format::next_packet(alloc, b"\x00\x07\x05hello")?.as_slice()
    )?;
    println!(rt; "{}", text::shown(alloc, b"caf\xC3\xA9 \xFF")?)?;
    println!(rt; "{:?}", fixed_buffer::reply(7, "hello")?.as_slice())?;
    for address in dns_read::addresses(alloc, ANSWER)?.as_slice() {
        println!(rt; "{address:?}")?;
    }
    println!(rt; "{:?}", dns_written::query(7, "example.com.")?.as_slice())?;
    for prefix in bgp_read::announced(alloc, UPDATE)?.as_slice() {
        println!(rt; "{prefix}")?;
    }
    let prefix = Prefix {
        afi: Afi::Ipv4,
        len: 24,
        address: [192, 0, 2, 0, 0, 0, 0, 0, 0, 0, 0, 0, 0, 0, 0, 0],
    };
    let messages = bgp_written::announcements(alloc, &[(prefix, None)], 0xC000_0201)?;
    println!(rt; "{:?}", messages.as_slice())?;
    Ok(())
}

/// An answer: `www.example.com` is an alias of `example.com`, which has an address.
const ANSWER: &[u8] = b"\x00\x07\x81\x80\x00\x01\x00\x02\x00\x00\x00\x00\
\x03www\x07example\x03com\x00\x00\x01\x00\x01\
\xC0\x0C\x00\x05\x00\x01\x00\x00\x01\x2C\x00\x02\xC0\x10\
\xC0\x10\x00\x01\x00\x01\x00\x00\x01\x2C\x00\x04\x5D\xB8\xD7\x0E";

/// An UPDATE that announces 192.0.2.0/24 and 198.51.100.0/24.
const UPDATE: &[u8] =
    b"\xFF\xFF\xFF\xFF\xFF\xFF\xFF\xFF\xFF\xFF\xFF\xFF\xFF\xFF\xFF\xFF\x00\x33\x02\
\x00\x00\x00\x14\x40\x01\x01\x00\x40\x02\x06\x02\x01\x00\x00\xFD\xE8\x40\x03\x04\xC0\x00\x02\x01\
\x18\xC0\x00\x02\x18\xC6\x33\x64";
