//! Reading and writing DNS names and messages.
use octseq::{Array, AsOctets, Parser};
use octseq_dns::data::Txt;
use octseq_dns::txt::{append_strings, append_text};
use octseq_dns::{
    Class, Data, Header, Message, MessageBuilder, Name, OptData, ParsedName, Rcode, Rtype,
    StaticCompressor, Ttl,
};
use std::alloc::Global;
use std::fmt::Write;

/// Whether a name is within a domain.
pub fn is_within() -> anyhow::Result<bool> {
    let host = Name::from_text("www.example.com.")?;
    let domain = Name::from_text("example.com.")?;
    let is_within = host.ends_with(&domain.parsed()); // true
    Ok(is_within)
}

/// Reads two names, the second of which ends with a pointer to the first.
pub fn two_names() -> anyhow::Result<(ParsedName<&'static [u8]>, ParsedName<&'static [u8]>)> {
    let mut parser = Parser::from_static(b"\x07example\x03com\x00\x03www\xC0\x00");
    let domain = ParsedName::parse(&mut parser)?; // "example.com."
    let host = ParsedName::parse(&mut parser)?; // "www.example.com."
    Ok((domain, host))
}

/// Returns the number of answers of a response, or `None` for a query or an error.
pub fn answer_count(octets: &[u8]) -> anyhow::Result<Option<u16>> {
    let message = Message::parse(octets)?;
    let header = message.header();
    if !header.flags.qr || header.rcode != Rcode::NOERROR {
        return Ok(None);
    }
    Ok(Some(message.header_counts().ancount))
}

/// Returns a line for each question: its name and its type.
pub fn asked(alloc: Global, octets: &[u8]) -> anyhow::Result<String> {
    let message = Message::parse(octets)?;
    let mut lines = String::new(alloc);
    for question in message.questions() {
        writeln!(lines, "{} {}", question.qname(), question.qtype())?;
    }
    Ok(lines)
}

/// Returns the IPv4 addresses among the answers.
pub fn addresses(alloc: Global, octets: &[u8]) -> anyhow::Result<Vec<[u8; 4]>> {
    let message = Message::parse(octets)?;
    let mut addresses = Vec::new(alloc);
    for answer in message.answers() {
        if let Data::A(address) = answer.data() {
            addresses.push(address)?;
        }
    }
    Ok(addresses)
}

/// Returns a message with one question.
pub fn query(header: Header, name: &Name<Array<255>>) -> anyhow::Result<Array<512>> {
    let table = StaticCompressor::<8>::new();
    let mut message = MessageBuilder::from_builder(Array::<512>::new(), table)?;
    message.set_header(header);
    let mut questions = message.question();
    questions.push_question(&name.parsed(), Rtype::A, Class::IN)?;
    let (octets, _) = questions.answer().authority().additional().finish();
    Ok(octets)
}

/// Returns a message with two questions of the same name.
pub fn two_questions() -> anyhow::Result<Array<512>> {
    let table = StaticCompressor::<8>::new();
    let message = MessageBuilder::from_builder(Array::<512>::new(), table)?;
    let name = Name::from_text("example.com.")?;
    let mut questions = message.question();
    questions.push_question(&name.parsed(), Rtype::A, Class::IN)?; // 17 octets
    questions.push_question(&name.parsed(), Rtype::AAAA, Class::IN)?; // 6 octets: the name is a pointer
    let (octets, _) = questions.answer().authority().additional().finish();
    Ok(octets)
}

/// Returns a message with one answer.
pub fn answer<R: AsOctets + Copy>() -> anyhow::Result<Array<512>> {
    let table = StaticCompressor::<8>::new();
    let message = MessageBuilder::from_builder(Array::<512>::new(), table)?;
    let name = Name::from_text("example.com.")?;
    let address = Data::<R>::A([192, 0, 2, 1]);
    let mut answers = message.question().answer();
    answers.push_record(&name.parsed(), Class::IN, Ttl::from_secs(300), &address)?;
    let (octets, _) = answers.authority().additional().finish();
    Ok(octets)
}

/// Returns the response that refuses a request.
pub fn refusal(request: &[u8]) -> anyhow::Result<Array<512>> {
    let request = Message::parse(request)?;
    let table = StaticCompressor::<8>::new();
    let message = MessageBuilder::from_builder(Array::<512>::new(), table)?;
    let answers = message.start_answer(&request, Rcode::REFUSED)?;
    let (octets, _) = answers.authority().additional().finish();
    Ok(octets)
}

/// Returns a message with as many of these addresses as 64 octets have room for.
pub fn within_limit<R: AsOctets + Copy>(
    name: &Name<Array<255>>,
    addresses: &[[u8; 4]],
) -> anyhow::Result<Array<512>> {
    let table = StaticCompressor::<8>::new();
    let message = MessageBuilder::from_builder(Array::<512>::new(), table)?;
    let mut answers = message.question().answer();
    answers.set_push_limit(64);
    for address in addresses {
        let data = Data::<R>::A(*address);
        let pushed = answers.push_record(&name.parsed(), Class::IN, Ttl::from_secs(300), &data);
        if pushed.is_err() {
            break; // with this record the message would have more than 64 octets
        }
    }
    let (octets, _) = answers.authority().additional().finish();
    Ok(octets)
}

/// Returns a message with an OPT record for UDP payloads of at most 1232 octets.
pub fn with_edns() -> anyhow::Result<Array<512>> {
    let table = StaticCompressor::<8>::new();
    let message = MessageBuilder::from_builder(Array::<512>::new(), table)?;
    let mut additionals = message.question().answer().authority().additional();
    additionals.push_opt(&OptData {
        udp_payload_size: 1232,
        extended_rcode: 0,
        version: 0,
        dnssec_ok: true,
        options: &[],
    })?;
    let (octets, _) = additionals.finish();
    Ok(octets)
}

/// Returns the text of TXT data with two strings.
pub fn strings_text(alloc: Global) -> anyhow::Result<String> {
    let mut octets = Array::<16>::new();
    append_strings(&mut octets, &[b"mail".as_slice(), b"web"])?; // "\x04mail\x03web"
    let txt = Txt::from_octets(octets.as_slice())?;
    let text = format!(in alloc; "{txt}")?; // "mail" "web"
    Ok(text)
}

/// Returns the lengths of the strings of TXT data with a text of 300 octets.
pub fn string_lens(alloc: Global) -> anyhow::Result<Vec<usize>> {
    let mut octets = Array::<512>::new();
    append_text(&mut octets, &[b'a'; 300])?;
    let mut lens = Vec::new(alloc);
    for string in Txt::from_octets(octets.as_slice())?.strings() {
        lens.push(string.as_slice().len())?; // 255, and then 45
    }
    Ok(lens)
}
