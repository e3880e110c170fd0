// The lines of the print.
ghost use Rattle.std.specs.Prelude.{◌++◌, ◌+◌, ◌≤◌, length};
ghost use Rattle.interp.specs.Answers.{outcome_model, counts_model};
ghost use Rattle.text.specs.Text.{place_text, decimal as decimal_of, line, terms_line, needs_line, type_line, acceptance_text, outcome_text, counts_text, refusal_text};
ghost use Rattle.drafts.specs.Internal.{DraftAppended, DraftHolds, draft_bytes};

use crate::draft::{Draft, decimal, hexadecimal, word};
use interp::answer::{Ground, RunCounts};
use numbers::Code;
use stores::values::Stop;

// A number behind its label.
fn labelled(d: &mut Draft, label: &[u8], n: usize)
    requires { d.old.len + (length label.now + 20) ≤ draft_bytes }
    ensures { DraftAppended d.old (label.now ++ decimal_of n) (length label.now + 20) d.new }
{
    word(d, label);
    decimal(d, n);
}

fn terms_line(d: &mut Draft, terms: u16)
    requires { d.old.len + 27 ≤ draft_bytes }
    ensures { DraftAppended d.old (terms_line terms) 27 d.new }
{
    labelled(d, b"terms ", terms as usize);
    word(d, b"\n");
}

fn needs_line(d: &mut Draft, needs: u32)
    requires { d.old.len + 15 ≤ draft_bytes }
    ensures { DraftAppended d.old (needs_line needs) 15 d.new }
{
    word(d, b"needs ");
    hexadecimal(d, 8, needs);
    word(d, b"\n");
}

fn type_line(d: &mut Draft, ty: u16)
    requires { d.old.len + 10 ≤ draft_bytes }
    ensures { DraftAppended d.old (type_line ty) 10 d.new }
{
    if ty == 0 {
        word(d, b"type bool\n");
    } else {
        word(d, b"type num\n");
    }
}

// What is printed of an accepted sheet before its run.
fn acceptance(terms: u16, ty: u16, needs: u32) -> Draft
    ensures { DraftHolds (acceptance_text terms ty needs) 52 result }
{
    let mut d = Draft::new();
    terms_line(&mut d, terms);
    needs_line(&mut d, needs);
    type_line(&mut d, ty);
    d
}

// A cause behind its label, and the place.
fn placed(d: &mut Draft, label: &[u8], n: Code)
    requires { d.old.len + (length label.now + 44) ≤ draft_bytes }
    ensures { DraftAppended d.old (label.now ++ decimal_of n.cause ++ place_text n.place) (length label.now + 44) d.new }
{
    labelled(d, label, n.cause as usize);
    labelled(d, b" at ", n.place as usize);
}

fn outcome(d: &mut Draft, o: Result<Ground, Stop>)
    requires { d.old.len + 49 ≤ draft_bytes }
    ensures { DraftAppended d.old (outcome_text (outcome_model o)) 49 d.new }
{
    match o {
        Err(x) => placed(d, b"stop ", Code::from(x)),
        Ok(Ground::Num(n)) => labelled(d, b"end num ", n as usize),
        Ok(Ground::Bool(true)) => word(d, b"end bool 1"),
        Ok(Ground::Bool(false)) => word(d, b"end bool 0"),
    }
}

fn counts(d: &mut Draft, m: RunCounts)
    requires { d.old.len + 107 ≤ draft_bytes }
    ensures { DraftAppended d.old (counts_text (counts_model m)) 107 d.new }
{
    labelled(d, b" calls ", m.calls);
    labelled(d, b" cells ", m.cells);
    labelled(d, b" posts ", m.posts);
    labelled(d, b" held ", m.saturated);
}

// The whole print of an accepted sheet and its run.
pub fn accepted(terms: u16, ty: u16, needs: u32, o: Result<Ground, Stop>, m: RunCounts) -> Draft
    ensures { DraftHolds (acceptance_text terms ty needs ++ line (outcome_text (outcome_model o) ++ counts_text (counts_model m))) 209 result }
{
    let mut d = acceptance(terms, ty, needs);
    outcome(&mut d, o);
    counts(&mut d, m);
    word(&mut d, b"\n");
    d
}

// The whole print of a refusal.
pub fn refusal(n: Code) -> Draft
    ensures { DraftHolds (refusal_text n.cause n.place) 53 result }
{
    let mut d = Draft::new();
    placed(&mut d, b"refused ", n);
    word(&mut d, b"\n");
    d
}
