// The words for 01's numbers. By number, and no enum between: anybody may have written the line, so that each may be any octet, and has its words.
ghost use Rattle.std.specs.Prelude.{◌≡◌, ◌≤◌, length};
ghost use Rattle.phrases.specs.Page.{Room, Writes};
ghost use Rattle.phrases.specs.Tables.{shot_words, confirmation_words, rer_words, terms_words, accepted_words, delivery_words, fault_meaning, reason_meaning, reason_words, refusal_meaning, state_name};

use crate::spelling::Page;
use book::Terms;

pub(crate) fn shot(maintained: bool) -> &'static [u8]
    ensures words { result.now ≡ shot_words maintained }
    ensures short { length result.now ≤ 10 }
{
    if maintained { b"maintained" } else { b"single" }
}

#[tactic(auto, unfolding(crate::specs::Tables::confirmation_words))]
pub(crate) fn confirmation(n: u8) -> &'static [u8]
    ensures words { result.now ≡ confirmation_words n }
    ensures short { length result.now ≤ 18 }
{
    match n {
        0 => b", unconfirmedReq",
        1 => b", confirmedReq",
        2 => b", confirmedOk",
        3 => b", confirmedNotOk",
        _ => b", confirmedUnknown",
    }
}

#[tactic(auto, unfolding(crate::specs::Tables::rer_words))]
fn rer(n: u8) -> &'static [u8]
    ensures words { result.now ≡ rer_words n }
    ensures short { length result.now ≤ 12 }
{
    match n {
        0 => b"not provided",
        1 => b"low",
        _ => b"high",
    }
}

pub fn terms(page: &mut Page, t: Terms)
    requires { Room page.old 61 }
    ensures { Writes page.old (terms_words t) 61 page.new }
{
    page.say(b"class ");
    page.number(usize::from(t.class));
    page.say(b", priority ");
    page.number(usize::from(t.priority));
    page.say(b", residual error rate ");
    page.say(rer(t.rer));
}

pub fn accepted(yes: bool) -> &'static [u8]
    ensures words { result.now ≡ accepted_words yes }
    ensures short { length result.now ≤ 8 }
{
    if yes { b"accepted" } else { b"rejected" }
}

#[tactic(auto, unfolding(crate::specs::Tables::delivery_words))]
pub fn delivery(n: u8) -> &'static [u8]
    ensures words { result.now ≡ delivery_words n }
    ensures short { length result.now ≤ 43 }
{
    match n {
        0 => b"Successful delivery",
        1 => b"Delivery failed",
        _ => b"Service problem - delivery status uncertain",
    }
}

#[tactic(auto, unfolding(crate::specs::Tables::fault_meaning))]
pub(crate) fn fault_meaning(n: u8) -> &'static [u8]
    ensures words { result.now ≡ fault_meaning n }
    ensures short { length result.now ≤ 52 }
{
    match n {
        11 => b"over 1,024 octets",
        12 => b"ends before a field is complete",
        13 => b"bit 1 of octet 0 set, confirmation above 4, or tag 0",
        14 => b"sender length 0 or above 32, data length above 512",
        15 => b"a needed field is absent",
        _ => b"octets left over with bit 7 clear",
    }
}

#[tactic(auto, unfolding(crate::specs::Tables::reason_meaning))]
fn reason_meaning(n: u8) -> &'static [u8]
    ensures words { result.now ≡ reason_meaning n }
    ensures short { length result.now ≤ 52 }
{
    match n {
        0 => b"peer abort",
        1 => b"provider abort",
        2 => b"timer",
        3 => b"rejected",
        10 => b"frame not expected",
        _ => fault_meaning(n),
    }
}

pub fn reason(page: &mut Page, n: u8)
    requires { Room page.old 66 }
    ensures { Writes page.old (reason_words n) 66 page.new }
{
    page.say(b"reason ");
    page.number(usize::from(n));
    page.say(b": ");
    page.say(reason_meaning(n));
}

#[tactic(auto, unfolding(crate::specs::Tables::refusal_meaning))]
pub fn refusal_meaning(n: u8) -> &'static [u8]
    ensures words { result.now ≡ refusal_meaning n }
    ensures short { length result.now ≤ 110 }
{
    match n {
        1 => b"the state does not take this event",
        2 =>
            b"the frame has a fault or extensions, or its confirmation does not fit the kind of transfer",
        3 => b"a multi-shot request in Associated has terms other than the dialogue's",
        4 => b"the identifier of this confirmed transfer is already waiting",
        5 => b"a confirmed transfer while eight identifiers are waiting",
        6 => b"the lent buffer has fewer than 1,024 octets",
        7 => b"setup is outside its limits",
        8 =>
            b"no event: kind unknown, body too short or too long, result or RER out of range, or no line of digits",
        _ => b"the unit handed in is not sound",
    }
}

#[tactic(auto, unfolding(crate::specs::Tables::state_name))]
pub fn state_name(n: u8) -> &'static [u8]
    ensures words { result.now ≡ state_name n }
    ensures short { length result.now ≤ 12 }
{
    match n {
        0 => b"Idle",
        1 => b"Start-single",
        2 => b"Start-multi",
        3 => b"Ending",
        _ => b"Associated",
    }
}
