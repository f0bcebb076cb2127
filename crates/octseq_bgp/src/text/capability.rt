//! The text of parameters and capabilities.
ghost use Rattle.std.specs.Prelude.{◌≡◌, Some, None};
ghost use Rattle.std.specs.Fmt.{WritesOnOk};
ghost use Rattle.std.specs.List.{flat_map};
ghost use Rattle.octseq.specs.Parser.{window};
ghost use Rattle.octseq_bgp.specs.Capability as said;
ghost use Rattle.octseq_bgp.specs.Capability.{IsCapabilityValue};
ghost use Rattle.octseq_bgp.specs.CapabilityOf.{capability_value_of, restart_of};
ghost use Rattle.octseq_bgp.specs.CapabilityText.{afi_text, safi_text, numbers_family, restart_flags, kept_text};
ghost use Rattle.octseq_bgp.specs.CapabilityText.{restart_text, use_text, paths_text, capability_text, parameter_text};
ghost use Rattle.octseq_bgp.specs.Items.{items_left};
ghost use Rattle.octseq_bgp.specs.OctetsText.{spaced};

use crate::capability::{Capability, CapabilityValue, FamilyTuple, GracefulRestart};
use crate::item::Items;
use crate::message::Parameter;
use crate::text::octets::write_opaque;
use octseq::AsOctets;
use std::fmt;

/// Writes the name of an AFI, or its number.
fn write_afi<W: fmt::Write>(f: &mut fmt::Formatter<W>, afi: u16) -> fmt::Result
    ensures { WritesOnOk W.write_str_gives f.old result (afi_text afi) f.new }
{
    match afi {
        1 => f.write_str("IPv4"),
        2 => f.write_str("IPv6"),
        _ => write!(f, "AFI{afi}"),
    }
}

/// Writes the name of a SAFI, or its number.
fn write_safi<W: fmt::Write>(f: &mut fmt::Formatter<W>, safi: u8) -> fmt::Result
    ensures { WritesOnOk W.write_str_gives f.old result (safi_text safi) f.new }
{
    match safi {
        1 => f.write_str("unicast"),
        2 => f.write_str("multicast"),
        _ => write!(f, "SAFI{safi}"),
    }
}

/// Writes an address family by its numbers.
pub(crate) fn write_family<W: fmt::Write>(
    f: &mut fmt::Formatter<W>,
    afi: u16,
    safi: u8,
) -> fmt::Result
    ensures { WritesOnOk W.write_str_gives f.old result (numbers_family afi safi) f.new }
{
    write_afi(f, afi)?;
    f.write_char('/')?;
    write_safi(f, safi)
}

/// Writes the letters of the two flags of a graceful restart.
fn write_restart_flags<W: fmt::Write, R: AsOctets + Copy>(
    f: &mut fmt::Formatter<W>,
    it: &GracefulRestart<R>,
) -> fmt::Result
    ensures { WritesOnOk W.write_str_gives f.old result (restart_flags it.now.bits) f.new }
{
    match (it.restarted(), it.takes_notifications()) {
        (true, true) => f.write_str("RN"),
        (true, false) => f.write_str("R"),
        (false, true) => f.write_str("N"),
        (false, false) => f.write_str("-"),
    }
}

/// Writes an address family, and whether its forwarding state was kept.
fn write_kept<W: fmt::Write>(f: &mut fmt::Formatter<W>, tuple: FamilyTuple) -> fmt::Result
    ensures { WritesOnOk W.write_str_gives f.old result
        (kept_text (tuple.afi, (tuple.safi, tuple.flags))) f.new }
{
    write_family(f, tuple.afi, tuple.safi)?;
    if tuple.forwards() {
        f.write_str(" F")
    } else {
        f.write_str(" -")
    }
}

/// Writes them after a space.
fn write_spaced_kept<W: fmt::Write>(f: &mut fmt::Formatter<W>, tuple: FamilyTuple) -> fmt::Result
    ensures { WritesOnOk W.write_str_gives f.old result
        (spaced (kept_text (tuple.afi, (tuple.safi, tuple.flags)))) f.new }
{
    f.write_str(" ")?;
    write_kept(f, tuple)
}

/// Writes each of them after a space.
fn write_all_kept<W: fmt::Write, R: AsOctets + Copy>(
    f: &mut fmt::Formatter<W>,
    families: Items<R, FamilyTuple>,
) -> fmt::Result
    ensures { WritesOnOk W.write_str_gives f.old result
        (flat_map (λ t. spaced (kept_text t)) (items_left families)) f.new }
{
    for tuple in families {
        write_spaced_kept(f, tuple)?;
    }
    Ok(())
}

/// Writes what a graceful restart says.
fn write_restart<W: fmt::Write, R: AsOctets + Copy>(
    f: &mut fmt::Formatter<W>,
    it: &GracefulRestart<R>,
) -> fmt::Result
    ensures { WritesOnOk W.write_str_gives f.old result (restart_text (restart_of it.now)) f.new }
{
    write_restart_flags(f, it)?;
    let seconds = it.restart_time();
    write!(f, " {seconds}")?;
    write_all_kept(f, it.families)
}

/// Writes an address family, and what is done with its path ids.
fn write_paths<W: fmt::Write>(f: &mut fmt::Formatter<W>, tuple: FamilyTuple) -> fmt::Result
    ensures { WritesOnOk W.write_str_gives f.old result
        (paths_text (tuple.afi, (tuple.safi, tuple.flags))) f.new }
{
    write_family(f, tuple.afi, tuple.safi)?;
    match tuple.flags {
        1 => f.write_str(" receive"),
        2 => f.write_str(" send"),
        _ => f.write_str(" both"),
    }
}

/// Writes them after a space.
fn write_spaced_paths<W: fmt::Write>(f: &mut fmt::Formatter<W>, tuple: FamilyTuple) -> fmt::Result
    ensures { WritesOnOk W.write_str_gives f.old result
        (spaced (paths_text (tuple.afi, (tuple.safi, tuple.flags)))) f.new }
{
    f.write_str(" ")?;
    write_paths(f, tuple)
}

/// Writes each of them after a space.
fn write_all_paths<W: fmt::Write, R: AsOctets + Copy>(
    f: &mut fmt::Formatter<W>,
    families: Items<R, FamilyTuple>,
) -> fmt::Result
    ensures { WritesOnOk W.write_str_gives f.old result
        (flat_map (λ t. spaced (paths_text t)) (items_left families)) f.new }
{
    for tuple in families {
        write_spaced_paths(f, tuple)?;
    }
    Ok(())
}

/// Writes a capability of a code, by its value.
pub(crate) fn write_capability<W: fmt::Write, R: AsOctets + Copy>(
    f: &mut fmt::Formatter<W>,
    code: u8,
    value: &CapabilityValue<R>,
) -> fmt::Result
    ensures { WritesOnOk W.write_str_gives f.old result
        (capability_text code (capability_value_of value.now)) f.new }
{
    match value {
        CapabilityValue::MultiProtocol(afi, _reserved, safi) => {
            f.write_str("multiprotocol ")?;
            write_family(f, *afi, *safi)
        }
        CapabilityValue::RouteRefresh => f.write_str("route-refresh"),
        CapabilityValue::ExtendedMessage => f.write_str("extended-message"),
        CapabilityValue::GracefulRestart(it) => {
            f.write_str("graceful-restart ")?;
            write_restart(f, it)
        }
        CapabilityValue::FourOctetAsn(asn) => write!(f, "four-octet-as {asn}"),
        CapabilityValue::AddPath(families) => {
            f.write_str("add-path")?;
            write_all_paths(f, *families)
        }
        CapabilityValue::EnhancedRouteRefresh => f.write_str("enhanced-route-refresh"),
        CapabilityValue::Opaque(parser) => {
            write!(f, "{code}")?;
            write_opaque(f, parser.peek_all())
        }
    }
}

/// Prints the value, such as `multiprotocol IPv6/unicast`, or the code and the octets.
impl<R: AsOctets + Copy> fmt::Display for Capability<R> {
    ghost output = { λ _. None };

    fn fmt<W: fmt::Write>(&self, f: &mut fmt::Formatter<W>) -> fmt::Result
        ensures shown { (value : said.CapabilityValue)
            → IsCapabilityValue self.now.code (window self.now.octets) value
            → WritesOnOk W.write_str_gives f.old result (capability_text self.now.code value) f.new }
    {
        let value = self.value();
        write_capability(f, self.code, &value)
    }
}

/// Prints the type and the octets, whatever they say.
impl<R: AsOctets + Copy> fmt::Display for Parameter<R> {
    ghost output = { λ parameter. Some (parameter_text parameter.kind (window parameter.value)) };

    fn fmt<W: fmt::Write>(&self, f: &mut fmt::Formatter<W>) -> fmt::Result {
        let kind = self.kind;
        write!(f, "{kind}")?;
        write_opaque(f, self.value.peek_all())
    }
}
