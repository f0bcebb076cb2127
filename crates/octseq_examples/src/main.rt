//! The examples of the doc comments and the tasks of `docs/CALLING.md`, and what each returns.
#![tactic(auto)]

mod builders;
mod composing;
mod dns;
mod parsing;
mod tasks;
mod text;

use octseq::{Array, AsOctets};
use octseq_dns::{Flags, Header, Message, Name, Opcode, Rcode};
use std::alloc::Global;

fn print_builders(rt: &impl Print, alloc: Global) -> anyhow::Result<()> {
    println!(rt; "{}", str::from_utf8(builders::lengthened()?.as_slice())?)?;
    println!(rt;
        "{:?}",
        builders::c_string::<Array<8>>(alloc, "abc")?.as_slice()
    )?;
    println!(rt;
        "{:?}",
        builders::c_string::<Vec<u8>>(alloc, "abc")?.as_slice()
    )?;
    println!(rt;
        "{}",
        str::from_utf8(builders::greeting::<Vec<u8>>(alloc)?.as_slice())?
    )?;
    let extended = builders::extended(alloc)?;
    println!(rt;
        "{} {}",
        str::from_utf8(extended.as_ref())?,
        extended.is_borrowed()
    )?;
    Ok(())
}

fn print_text(rt: &impl Print, alloc: Global) -> anyhow::Result<()> {
    println!(rt; "{}", text::marked(alloc, b"caf\xC3\xA9 \xFF\xFFx")?)?;
    if let Some(fault) = text::first_fault() {
        println!(rt; "{fault}")?;
    }
    println!(rt; "{}", text::printed_len("localhost", 8080)?)?;
    println!(rt; "{}", text::coffee(alloc)?)?;
    println!(rt; "{}", text::priced(alloc)?)?;
    println!(rt; "{}", text::short(alloc)?)?;
    println!(rt; "{}", text::repaired(alloc)?)?;
    println!(rt; "{}", text::price_in_pieces(alloc)?)?;
    let received = [b"caf\xC3".as_slice(), b"\xA9 \xC3"];
    println!(rt; "{}", text::received_text(alloc, &received)?)?;
    Ok(())
}

fn print_parsing(rt: &impl Print) -> anyhow::Result<()> {
    let account = composing::account()?;
    println!(rt; "{:?}", account.as_slice())?;
    let (number, name, balance) = parsing::account()?;
    println!(rt; "{number} {} {balance}", str::from_utf8(name.peek_all())?)?;
    let (key, value) = parsing::entry()?;
    println!(rt; "{} {value}", str::from_utf8(key)?)?;
    println!(rt; "{}", parsing::total())?;
    println!(rt; "{:?}", parsing::record()?)?;
    Ok(())
}

fn print_dns_read(rt: &impl Print, alloc: Global) -> anyhow::Result<()> {
    println!(rt; "{}", dns::is_within()?)?;
    let (domain, host) = dns::two_names()?;
    println!(rt; "{domain} {host}")?;
    println!(rt; "{:?}", dns::answer_count(RESPONSE)?)?;
    print!(rt; "{}", dns::asked(alloc, RESPONSE)?)?;
    println!(rt; "{:?}", dns::addresses(alloc, RESPONSE)?)?;
    Ok(())
}

fn print_dns_written(rt: &impl Print, alloc: Global) -> anyhow::Result<()> {
    let name = Name::from_text("example.com.")?;
    let header = Header {
        id: 7,
        flags: Flags {
            rd: true,
            ..Flags::default()
        },
        opcode: Opcode::QUERY,
        rcode: Rcode::NOERROR,
    };
    let query = dns::query(header, &name)?;
    print!(rt; "{}", Message::parse(query.as_slice())?)?;
    print!(rt; "{}", Message::parse(dns::two_questions()?.as_slice())?)?;
    print!(rt; "{}", Message::parse(dns::answer::<&[u8]>()?.as_slice())?)?;
    print!(rt;
        "{}",
        Message::parse(dns::refusal(query.as_slice())?.as_slice())?
    )?;
    let limited = dns::within_limit::<&[u8]>(
        &name,
        &[[192, 0, 2, 1], [192, 0, 2, 2], [192, 0, 2, 3]],
    )?;
    print!(rt; "{}", Message::parse(limited.as_slice())?)?;
    if let Some(opt) = Message::parse(dns::with_edns()?.as_slice())?.opt()? {
        println!(rt; "{} {}", opt.udp_payload_size(), opt.dnssec_ok())?;
    }
    println!(rt; "{}", dns::strings_text(alloc)?)?;
    println!(rt; "{:?}", dns::string_lens(alloc)?)?;
    Ok(())
}

fn main(rt: HostRuntime) -> anyhow::Result<()> {
    let alloc = rt.alloc();
    print_builders(&rt, alloc)?;
    print_text(&rt, alloc)?;
    print_parsing(&rt)?;
    print_dns_read(&rt, alloc)?;
    print_dns_written(&rt, alloc)?;
    tasks::print_tasks(&rt, alloc)
}

/// A response: `www.example.com` is an alias of `example.com`, which has an address.
const RESPONSE: &[u8] = b"\x00\x07\x81\x80\x00\x01\x00\x02\x00\x00\x00\x00\
\x03www\x07example\x03com\x00\x00\x01\x00\x01\
\xC0\x0C\x00\x05\x00\x01\x00\x00\x01\x2C\x00\x02\xC0\x10\
\xC0\x10\x00\x01\x00\x01\x00\x00\x01\x2C\x00\x04\x5D\xB8\xD7\x0E";
