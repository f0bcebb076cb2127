//! Laws for callers. Each is the contract of a function that does nothing: calling it brings the law into the caller's
//! proof.
ghost use Rattle.std.specs.Prelude.{◌≡◌, ◌+◌, ◌<◌, ◌≤◌, ◌++◌, [], ◌∷◌, Bool, ℕ, List, Some, length};
ghost use Rattle.std.specs.List.{AllByRecursion, sum_by};
ghost use Rattle.octseq.specs.Code.{HasFront};
ghost use Rattle.octseq.specs.Window.{Window, rest};
ghost use Rattle.octseq_format.specs.Canonical.{AreOctets};
ghost use Rattle.octseq_bgp.specs.Capability.{CapabilityValue, IsCapabilityValue};
ghost use Rattle.octseq_bgp.specs.Fault.{AttributeFault, AreFaultsOf, worst_of};
ghost use Rattle.octseq_bgp.specs.Filling.{AreRunsFilled, AreRunsThatFit, FitWith, Given, given_long, with_announced};
ghost use Rattle.octseq_bgp.specs.Filling.{with_in_last, with_withdrawn};
ghost use Rattle.octseq_bgp.specs.Handling.{IsHandling};
ghost use Rattle.octseq_bgp.specs.Message as said;
ghost use Rattle.octseq_bgp.specs.Message.{IsMessage};
ghost use Rattle.octseq_bgp.specs.MessageText.{IsMessageText};
ghost use Rattle.octseq_bgp.specs.Minimal.{IsMinimalMessage};
ghost use Rattle.octseq_bgp.specs.OneOpen.{open_says};
ghost use Rattle.octseq_bgp.specs.Open.{Open};
ghost use Rattle.octseq_bgp.specs.Parts.{octets_of_bits};
ghost use Rattle.octseq_bgp.specs.PrefixValue.{address_from, prefix_address};
ghost use Rattle.octseq_bgp.specs.ReadWritten.{update_says};
ghost use Rattle.octseq_bgp.specs.Rewritten.{IsRewritten};
ghost use Rattle.octseq_bgp.specs.Stop.{IsStop};
ghost use Rattle.octseq_bgp.specs.Stream.{IsFramed, IsMisframed};
ghost use Rattle.octseq_bgp.specs.Update.{Update};
ghost use Rattle.octseq_bgp.specs.Value.{Value, HasForm, IsValue};
ghost use Rattle.octseq_bgp.specs.Written.{WrittenUpdate, UpdateFits, update_octets};
ghost use Rattle.octseq_bgp.specs.WrittenMessage.{keepalive_octets, max_length};
ghost use Rattle.octseq_bgp.specs.WrittenNotification.{WrittenNotification, notification_octets, notification_says};
ghost use Rattle.octseq_bgp.specs.WrittenOpen.{FitsOpen, WrittenOpen, open_octets};
ghost use Rattle.octseq_bgp.specs.WrittenRouteRefresh.{WrittenRouteRefresh, route_refresh_octets, route_refresh_says};
ghost use Rattle.octseq_bgp.specs.WrittenValue.{WrittenValue, FitsForm, says_value, value_octets, value_type};
ghost use Rattle.octseq_bgp.specs.declared.attribute.attribute_type.AttributeType.{AttributeType};
ghost use Rattle.octseq_bgp.specs.declared.session.SessionConfig.{SessionConfig as Session};

use crate::session::SessionConfig;
use octseq_stream::frames_are_apart;

/// Octets are a message of a session in at most one way.
pub fn one_message()
    ensures { (session : Session) (octets : List ℕ) (m n : said.Message)
        → IsMessage session octets m → IsMessage session octets n → m ≡ n }
{}

/// A path attribute has at most one value.
pub fn one_value()
    ensures { (session : Session) (number : ℕ) (w : Window) (a b : Value)
        → IsValue session number w a → IsValue session number w b → a ≡ b }
{}

/// A capability has at most one value.
pub fn one_capability_value()
    ensures { (number : ℕ) (w : Window) (a b : CapabilityValue)
        → IsCapabilityValue number w a → IsCapabilityValue number w b → a ≡ b }
{}

/// A message has at most one text.
pub fn one_text()
    ensures { (m : said.Message) (text other : List ℕ) → IsMessageText m text → IsMessageText m other → text ≡ other }
{}

/// Reading stops at one position.
pub fn one_stop()
    ensures { (session : Session) (octets : List ℕ) (x y : ℕ)
        → IsStop session octets x → IsStop session octets y → x ≡ y }
{}

/// Reading octets that are a message stops at their end.
pub fn messages_stop_at_their_end()
    ensures { (session : Session) (octets : List ℕ) (m : said.Message)
        → IsMessage session octets m → IsStop session octets (length octets) }
{}

/// An UPDATE must be handled by the worst of its faults.
pub fn worst_of_faults()
    ensures { (external : Bool) (update : Update) (row : List AttributeFault) → AreFaultsOf external update row
        → IsHandling external update (worst_of row) }
{}

/// At most one framed message is at the front of octets.
pub fn framed_messages_are_apart()
    ensures { (session : Session) (a b x y : List ℕ) → IsFramed session a → IsFramed session b
        → a ++ x ≡ b ++ y → a ≡ b }
{
    frames_are_apart::<SessionConfig>();
}

/// No framed message begins with misframed octets, whatever follows them.
pub fn misframed_begins_none()
    ensures { (session : Session) (octets more : List ℕ) → IsMisframed session octets
        → ¬ HasFront (IsFramed session) (λ octets. octets) (octets ++ more) }
{
    octseq_stream::misframed_begins_none::<SessionConfig>();
}

/// Misframed octets stay misframed, whatever follows them.
pub fn misframed_octets_stay_so()
    ensures { (session : Session) (octets more : List ℕ) → IsMisframed session octets
        → IsMisframed session (octets ++ more) }
{}

/// Octets that are a message are framed as one.
pub fn messages_are_framed()
    ensures { (session : Session) (octets : List ℕ) (m : said.Message) → AreOctets octets
        → IsMessage session octets m → IsFramed session octets }
{}

/// The octets of a value of a path attribute are read as that value, under the session in which they were written.
pub fn written_values_are_read()
    ensures { (session : Session) (w : Window) (v : WrittenValue) → FitsForm session v → rest w ≡ value_octets session v
        → w.end ≡ w.position + length (value_octets session v)
        → (value : Value) × (says_value value ≡ Some v) × HasForm session (value_type v) w value }
{}

/// The octets of an UPDATE that was written are read as it, under the same session.
pub fn updates_are_read_back()
    ensures { (session : Session) (u : WrittenUpdate) → UpdateFits session u
        → (read : Update) × IsMessage session (update_octets u) (said.Message.update read) × (update_says read ≡ u) }
{}

/// The octets of an OPEN that was written are read as it, of version 4, under any session.
pub fn opens_are_read_back()
    ensures { (session : Session) (o : WrittenOpen) → FitsOpen o
        → (read : Open) × IsMessage session (open_octets o) (said.Message.opens read)
        × ((read.version ≡ 4) × (open_says o.long read ≡ o)) }
{}

/// The octets of a NOTIFICATION that was written are read as it, under the same session.
pub fn notifications_are_read_back()
    ensures { (session : Session) (n : WrittenNotification) → n.code < 256 → n.subcode < 256
        → length (notification_octets n) ≤ max_length session.extended_message
        → (read : ℕ × (ℕ × Window)) × IsMessage session (notification_octets n) (said.Message.notification read)
        × (notification_says read ≡ n) }
{}

/// The octets of a KEEPALIVE are read as one, under any session.
pub fn keepalives_are_read_back()
    ensures { (session : Session) → IsMessage session keepalive_octets said.Message.keepalive }
{}

/// The octets of a ROUTE-REFRESH that was written are read as it, under the same session.
pub fn route_refreshes_are_read_back()
    ensures { (session : Session) (r : WrittenRouteRefresh) → r.afi < 65536 → r.subtype < 256 → r.safi < 256
        → length (route_refresh_octets r) ≤ max_length session.extended_message
        → (read : ℕ × (ℕ × (ℕ × Window))) × IsMessage session (route_refresh_octets r) (said.Message.route_refresh read)
        × (route_refresh_says read ≡ r) }
{}

/// The octets of a prefix that was written have the address that was given, with the bits after its length cleared.
pub fn written_addresses_are_read_back()
    ensures { (bits : ℕ) (address : List ℕ) → AreOctets address
        → prefix_address bits (address_from (octets_of_bits bits) 0 bits address) ≡ prefix_address bits address }
{}

/// Prefixes add their own octets to those of an UPDATE, and no others.
pub fn prefixes_add_their_octets()
    ensures withdrawn { (u : WrittenUpdate) (row : List Given) → length (update_octets (with_withdrawn u row))
        ≡ length (update_octets u) + sum_by given_long row }
    ensures announced { (u : WrittenUpdate) (row : List Given) → length (update_octets (with_announced u row))
        ≡ length (update_octets u) + sum_by given_long row }
{}

/// Messages that are filled one after another, each begun as the same UPDATE, are no more than those of any other way
/// to divide the prefixes, in their order, into messages of at most `most` octets.
pub fn filled_messages_are_fewest()
    ensures withdrawn { (most : ℕ) (u : WrittenUpdate) (row : List Given) (counts : List ℕ) (runs : List (List Given))
        → AreRunsFilled (FitWith most (with_withdrawn u)) row counts
        → AreRunsThatFit (FitWith most (with_withdrawn u)) row runs
        → length counts ≤ length runs }
    ensures announced { (most : ℕ) (u : WrittenUpdate) (row : List Given) (counts : List ℕ) (runs : List (List Given))
        → AreRunsFilled (FitWith most (with_announced u)) row counts
        → AreRunsThatFit (FitWith most (with_announced u)) row runs
        → length counts ≤ length runs }
    ensures in_last { (most : ℕ) (t : AttributeType) (u : WrittenUpdate) (row : List Given) (counts : List ℕ)
        (runs : List (List Given)) → AreRunsFilled (FitWith most (with_in_last t u)) row counts
        → AreRunsThatFit (FitWith most (with_in_last t u)) row runs → length counts ≤ length runs }
{}

/// None of them is without prefixes, if each prefix alone fits such a message.
pub fn filled_messages_have_prefixes()
    ensures withdrawn { (most : ℕ) (u : WrittenUpdate) (row : List Given) (counts : List ℕ)
        → AllByRecursion (λ p. FitWith most (with_withdrawn u) (p ∷ [])) row
        → AreRunsFilled (FitWith most (with_withdrawn u)) row counts → AllByRecursion (λ count. 1 ≤ count) counts }
    ensures announced { (most : ℕ) (u : WrittenUpdate) (row : List Given) (counts : List ℕ)
        → AllByRecursion (λ p. FitWith most (with_announced u) (p ∷ [])) row
        → AreRunsFilled (FitWith most (with_announced u)) row counts → AllByRecursion (λ count. 1 ≤ count) counts }
    ensures in_last { (most : ℕ) (t : AttributeType) (u : WrittenUpdate) (row : List Given) (counts : List ℕ)
        → AllByRecursion (λ p. FitWith most (with_in_last t u) (p ∷ [])) row
        → AreRunsFilled (FitWith most (with_in_last t u)) row counts → AllByRecursion (λ count. 1 ≤ count) counts }
{}

/// A message is written anew in at most one way.
pub fn one_rewriting()
    ensures { (session : Session) (octets x y : List ℕ)
        → IsRewritten session octets x → IsRewritten session octets y → x ≡ y }
{}

/// A message that is written anew has no more octets than it had.
pub fn rewritten_messages_are_no_longer()
    ensures { (session : Session) (octets out : List ℕ) → AreOctets octets
        → IsRewritten session octets out → length out ≤ length octets }
{}

/// A minimal message, in which what has no meaning is 0 and each length is as short as it can be, is written anew as
/// the octets that it was.
pub fn minimal_messages_stay()
    ensures { (session : Session) (octets out : List ℕ) → AreOctets octets
        → IsMinimalMessage session octets → IsRewritten session octets out → out ≡ octets }
{}
