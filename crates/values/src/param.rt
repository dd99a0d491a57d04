// The parameters of From and To, after the address.
ghost use Rattle.std.specs.Prelude.{◌≡◌, ◌+◌, ◌^◌, ◌≤◌, ◌<◌, true, false, length, unwrap_or, IfSome, MatchOption};
ghost use Rattle.sip.specs.Values.{param_value, param_rest, param, stops, with_param, params, no_params, no_param};
ghost use Rattle.values.specs.Answers.{IsSize, ParamFits};

use super::scan::{past, sign};
use octets::Class;
use sip::{ParamAt, ParamsAt};

// A parameter's value: a token or a quoted string; that of a tag is a token of 1 to 64 bytes. The flag is that of the definitions
// (`param_value`, `param_rest` of sip).
#[tactic(auto, unfolding(sip::specs::Values::param_value))]
fn param_value(is_tag: bool, s: &[u8]) -> Option<usize>
    ensures { IsSize result (param_value is_tag s.now) s.now }
{
    let token = Class::Token.run(s);
    match token {
        1..=64 => Some(token),
        _ if is_tag => None,
        0 => octets::quoted(s),
        _ => Some(token),
    }
}

// What stands after the first `named` bytes of a parameter, up to its name. Both are parts of one slice, so that no sum wraps.
#[tactic(auto, unfolding(sip::specs::Values::param_rest))]
fn param_rest(named: usize, is_tag: bool, s: &[u8]) -> Option<ParamAt>
    requires { (1 ≤ named) × (named + length s.now < 2 ^ 63) }
    ensures { (unwrap_or result no_param ≡ param_rest named is_tag s.now) × IfSome result (λ p. ParamFits p (named + length s.now)) }
{
    let Some(equal) = sign(b'=', s) else {
        if is_tag {
            return None;
        }
        return Some(ParamAt {
            size: named,
            tag: false,
            value: named,
            len: 0,
        });
    };
    let len = param_value(is_tag, past(s, equal))?;
    let value = named + equal;
    Some(ParamAt {
        size: value + len,
        tag: is_tag,
        value,
        len,
    })
}

// The parameter at the front of a text. It is the tag by its whole name, in any case.
#[tactic(auto, unfolding(sip::specs::Values::param, octets::specs::Classes::text))]
fn param(s: &[u8]) -> Option<ParamAt>
    ensures { (unwrap_or result no_param ≡ param s.now) × IfSome result (λ p. ParamFits p (length s.now)) }
{
    let semicolon = sign(b';', s)?;
    let after = past(s, semicolon);
    let name = Class::Token.run(after);
    if name < 1 {
        return None;
    }
    let is_tag = octets::same_text(b"tag", octets::first(after, name));
    param_rest(semicolon + name, is_tag, past(after, name))
}

// One more parameter, which is no second tag.
#[tactic(auto, unfolding(sip::specs::Values::stops))]
fn next_param(got: ParamsAt, s: &[u8]) -> Option<ParamAt>
    ensures { MatchOption result (stops got (param s.now) ≡ true) (λ p. (p ≡ param s.now) × (stops got p ≡ false) × ParamFits p (length s.now)) }
{
    let p = param(s)?;
    if p.tag && got.len != 0 {
        return None;
    }
    Some(p)
}

// The parameters read so far, and one more.
#[tactic(auto, unfolding(sip::specs::Values::with_param))]
fn with_param(got: ParamsAt, p: ParamAt) -> ParamsAt
    requires { (got.size + p.size < 2 ^ 63) × (p.value + p.len ≤ p.size) × (got.tag + got.len ≤ got.size) }
    ensures { (result ≡ with_param got p) × (result.size ≡ got.size + p.size) × (result.tag + result.len ≤ result.size) }
{
    let size = got.size + p.size;
    if p.tag {
        let tag = got.size + p.value;
        return ParamsAt {
            size,
            tag,
            len: p.len,
        };
    }
    ParamsAt { size, ..got }
}

// The parameters at the front of a text, up to what is none or a second tag.
pub(crate) fn params(s: &[u8]) -> ParamsAt
    ensures { (result ≡ params no_params 0 s.now) × (result.size ≤ length s.now) × (result.tag + result.len ≤ result.size) }
{
    let mut got = ParamsAt {
        size: 0,
        tag: 0,
        len: 0,
    };
    while let Some(p) = next_param(got, past(s, got.size)) {
        got = with_param(got, p);
    }
    got
}
