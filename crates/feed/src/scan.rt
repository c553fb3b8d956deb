// What the rules make of a string, byte by byte.
ghost use Rattle.std.specs.Prelude.{◌≡◌, cond, ◌+◌, ◌≤◌, leb, length};
ghost use Rattle.feed.specs.Steps.Next.{is_opaque, part_by};
ghost use Rattle.feed.specs.Rest.{text_after, part_after, scan_after, scanned, fresh as fresh_scan, passes as passes_rule, fills as fills_rule, leads as leads_rule};

use crate::state::{Rule, Scan};

// Before the first byte.
pub(crate) fn fresh() -> Scan
    ensures { result ≡ fresh_scan }
{
    Scan {
        left: 0,
        low: 128,
        high: 191,
        start: 0,
        part: 0,
    }
}

// The text rule after one more byte, at position i.
fn text_after(scan: Scan, i: u32, b: u8, part: u8) -> Scan
    ensures { result ≡ text_after scan i b part }
{
    let left = scan.left;
    if left == 0 {
        return Scan {
            left: xdr::text::followers(b),
            low: xdr::text::lowest(b),
            high: xdr::text::highest(b),
            start: i,
            part,
        };
    }
    if 3 < left {
        return Scan {
            left,
            low: scan.low,
            high: scan.high,
            start: scan.start,
            part,
        };
    }
    if xdr::text::is_within(b, scan.low, scan.high) {
        return Scan {
            left: left - 1,
            low: 128,
            high: 191,
            start: scan.start,
            part,
        };
    }
    Scan {
        left: 4,
        low: scan.low,
        high: scan.high,
        start: scan.start,
        part,
    }
}

// The part at hand after a slash: a part that leads down ends there.
fn part_closed(part: u8) -> u8
    ensures { result ≡ part_after part 47 }
{
    if part == 3 {
        return 0;
    }
    4
}

// The part at hand after a dot.
fn part_dotted(part: u8) -> u8
    ensures { result ≡ part_after part 46 }
{
    if 4 <= part {
        return 4;
    }
    if part <= 1 {
        return part + 1;
    }
    3
}

// A name after one more byte.
fn part_after(part: u8, b: u8) -> u8
    ensures { result ≡ part_after part b }
{
    if b == 47 {
        return part_closed(part);
    }
    if b == 46 {
        return part_dotted(part);
    }
    if 4 <= part {
        return 4;
    }
    if b == 0 {
        return 4;
    }
    3
}

// Whether a rule asks for nothing.
fn is_opaque(rule: Rule) -> bool
    ensures { result ≡ is_opaque rule }
{
    match rule {
        Rule::Opaque => true,
        Rule::Text => false,
        Rule::Name => false,
    }
}

// The part at hand after one more byte, where a rule asks for it.
fn part_by(rule: Rule, part: u8, b: u8) -> u8
    ensures { result ≡ part_by rule part b }
{
    match rule {
        Rule::Opaque => part,
        Rule::Text => part,
        Rule::Name => part_after(part, b),
    }
}

// What a rule makes of one more byte. Text and names go by one call, so that it is small enough to stand in a loop.
pub(crate) fn scan_after(rule: Rule, scan: Scan, i: u32, b: u8) -> Scan
    ensures { result ≡ scan_after rule scan i b }
{
    if is_opaque(rule) {
        return scan;
    }
    text_after(scan, i, b, part_by(rule, scan.part, b))
}

// What a rule makes of some bytes, the first of which is at position i.
fn scan_each(rule: Rule, scan: Scan, i: u32, part: &[u8]) -> Scan
    requires { i + length part.now ≤ 131072 }
    ensures { result ≡ scanned rule scan i part.now }
{
    let mut q = scan;
    let mut at = i;
    for b in part {
        q = scan_after(rule, q, at, *b);
        at += 1;
    }
    q
}

// The same, where nothing is asked of an opaque.
pub(crate) fn scan_over(rule: Rule, scan: Scan, i: u32, part: &[u8]) -> Scan
    requires { i + length part.now ≤ 131072 }
    ensures { result ≡ scanned rule scan i part.now }
{
    let Rule::Opaque = rule else {
        return scan_each(rule, scan, i, part);
    };
    scan
}

// Whether contents keep the text rule, where a rule asks for it.
pub(crate) fn passes(rule: Rule, scan: Scan) -> bool
    ensures { result ≡ passes_rule rule scan }
{
    match rule {
        Rule::Opaque => true,
        Rule::Text => scan.left == 0,
        Rule::Name => scan.left == 0,
    }
}

// Whether they are as many as a rule wants.
pub(crate) fn fills(rule: Rule, n: u32) -> bool
    ensures { result ≡ fills_rule rule n }
{
    match rule {
        Rule::Opaque => true,
        Rule::Text => true,
        Rule::Name => 1 <= n,
    }
}

// Whether they are a name that leads down, where a rule asks for it.
pub(crate) fn leads(rule: Rule, scan: Scan) -> bool
    ensures { result ≡ leads_rule rule scan }
{
    match rule {
        Rule::Opaque => true,
        Rule::Text => true,
        Rule::Name => scan.part == 3,
    }
}

// What a rule makes of some bytes from any position on: nothing, where they go beyond the longest string.
pub fn scan_on(rule: Rule, scan: Scan, i: u32, part: &[u8]) -> Scan
    ensures { result ≡ cond (leb (i + length part.now) 131072) (scanned rule scan i part.now) scan }
{
    if 131072 < i {
        return scan;
    }
    if 131072 - (i as usize) < part.len() {
        return scan;
    }
    scan_over(rule, scan, i, part)
}
