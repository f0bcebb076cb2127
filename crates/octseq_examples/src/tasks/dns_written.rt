//! Writing a DNS message.
use octseq::Array;
use octseq_dns::{
    Class, Flags, Header, MessageBuilder, Name, Opcode, Rcode, Rtype, StaticCompressor,
};

/// Returns a query for the addresses of a name, in a buffer of 512 octets. A table of eight targets compresses names.
pub fn query(id: u16, name: &str) -> anyhow::Result<Array<512>> {
    let name = Name::from_text(name)?;
    let table = StaticCompressor::<8>::new();
    let mut message = MessageBuilder::from_builder(Array::new(), table)?;
    message.set_header(Header {
        id,
        flags: Flags {
            rd: true,
            ..Flags::default()
        },
        opcode: Opcode::QUERY,
        rcode: Rcode::NOERROR,
    });
    let mut questions = message.question();
    questions.push_question(&name.parsed(), Rtype::A, Class::IN)?;
    let (message, _) = questions.answer().authority().additional().finish();
    Ok(message)
}
