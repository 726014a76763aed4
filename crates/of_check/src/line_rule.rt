//! What is wrong with a line of a text where a report must have another, the wanted one.

ghost use Rattle.std.specs.Prelude.{◌≡◌, ◌≤◌, ◌↔◌, ℕ, length, IsTrue, MatchOption};
ghost use Rattle.of_check.specs.LineRules.{line_pieces, piece_at, IsPiece, SharePieces, HasOtherPiece, IsStoreName, IsOtherIn, HasMorePieces, SaysOfLine, IsTrueOfLine};

use of_script::text::cut;

/// What is wrong with a line that is not the wanted one.
#[derive(Clone, Copy, Debug, PartialEq, Eq)]
pub(crate) enum LineRule {
    /// The line comes after the end of the wanted text.
    AfterEnd,
    /// The line found or the wanted line is one of the store, and the two lines differ.
    Store,
    /// The line is the wanted entry, but has another reply.
    Reply,
    /// The line is of another caller.
    Caller,
    /// The line has another number of entries.
    Entries,
    /// The line has another sequence.
    Sequence,
    /// The line is that of a caller, but the wanted line is that of the sequence: the text has one
    /// line of a caller too many.
    TooMany,
    /// The line isn't spelled as a report prints it.
    Spelling,
}

impl LineRule {
    /// What is printed of the reason.
    pub(crate) fn text(self) -> &'static str {
        match self {
            LineRule::AfterEnd => "nothing comes after the line `end`",
            LineRule::Store => "the report breaks rule 5: another store than the scripts leave",
            LineRule::Reply => "the report breaks rule 4: another reply than the script gives",
            LineRule::Caller => "the report breaks rule 2: the line of another caller",
            LineRule::Entries => {
                "the report breaks rule 2: another number of entries than the caller has"
            }
            LineRule::Sequence => {
                "the report breaks rule 3: another sequence than that of the last entry"
            }
            LineRule::TooMany => "the report breaks rule 2: a line of a caller too many",
            LineRule::Spelling => "not as a report prints it",
        }
    }
}

// The piece of a line with this many before it.
fn piece(line: &[u8], before: usize) -> Option<&[u8]>
    ensures { MatchOption result (length (line_pieces line.now) ≤ before)
        (λ p. IsPiece line.now before p.now) }
{
    let mut rest = line;
    let mut at: usize = 0;
    loop {
        let (first, after) = cut(rest, b' ');
        if at == before {
            return Some(first);
        }
        match after {
            Some(more) => rest = more,
            None => return None,
        }
        at += 1;
    }
}

// How many pieces two lines begin with that are the same.
fn same_pieces(one: &[u8], other: &[u8]) -> usize
    ensures same { SharePieces result one.now other.now }
    ensures most { (count : ℕ) → SharePieces count one.now other.now → count ≤ result }
{
    let mut left = one;
    let mut right = other;
    let mut count: usize = 0;
    loop {
        let (first, more) = cut(left, b' ');
        let (second, others) = cut(right, b' ');
        if first != second {
            return count;
        }
        let Some(more) = more else {
            return count + 1;
        };
        let Some(others) = others else {
            return count + 1;
        };
        left = more;
        right = others;
        count += 1;
    }
}

// Whether two lines begin with this many pieces that are the same.
#[tactic(auto, using(crate::proofs::Pieces::share_fewer))]
fn share_pieces(count: usize, one: &[u8], other: &[u8]) -> bool
    ensures { IsTrue result ↔ SharePieces count one.now other.now }
{
    same_pieces(one, other) >= count
}

// The first piece of a line.
fn name(line: &[u8]) -> &[u8]
    ensures { result.now ≡ piece_at line.now 0 }
{
    let (first, _) = cut(line, b' ');
    first
}

// Whether this is the first piece of a line.
fn has_name(line: &[u8], word: &[u8]) -> bool
    ensures { IsTrue result ↔ (piece_at line.now 0 ≡ word.now) }
{
    name(line) == word
}

// Whether both lines have a piece with this many before it, and the found one is not empty and not
// the wanted one. A line that ends before has no such piece, and so has one with two spaces there.
fn has_other(found: &[u8], wanted: &[u8], before: usize) -> bool
    ensures { IsTrue result ↔ HasOtherPiece found.now wanted.now before }
{
    let Some(one) = piece(found, before) else {
        return false;
    };
    match piece(wanted, before) {
        Some(other) => !one.is_empty() && one != other,
        None => false,
    }
}

// Whether the wanted line begins with this word, and the lines share the first `before` pieces and
// differ in the next one.
fn is_other_in(kind: &[u8], before: usize, found: &[u8], wanted: &[u8]) -> bool
    ensures { IsTrue result ↔ IsOtherIn kind.now before found.now wanted.now }
{
    has_name(wanted, kind)
        && share_pieces(before, found, wanted)
        && has_other(found, wanted, before)
}

// Whether this is the name of a line of a store.
fn is_of_store(name: &[u8]) -> bool
    ensures { IsTrue result ↔ IsStoreName name.now }
{
    name == b"register".as_slice() || name == b"key".as_slice() || name == b"queue".as_slice()
}

// Whether a line has more pieces than its name.
fn has_more_pieces(line: &[u8]) -> bool
    ensures { IsTrue result ↔ HasMorePieces line.now }
{
    piece(line, 1).is_some()
}

impl LineRule {
    // The reasons but for the coarse one, in the order in which they are looked for.
    const EXACT: [LineRule; 7] = [
        LineRule::AfterEnd,
        LineRule::Store,
        LineRule::TooMany,
        LineRule::Reply,
        LineRule::Caller,
        LineRule::Entries,
        LineRule::Sequence,
    ];

    // Whether it says the truth of a line that is another than the wanted one.
    fn says(self, found: &[u8], wanted: &[u8]) -> bool
        ensures { IsTrue result ↔ SaysOfLine self found.now wanted.now }
    {
        match self {
            LineRule::AfterEnd => wanted.is_empty(),
            LineRule::Store => {
                is_of_store(name(wanted))
                    || has_more_pieces(found)
                        && is_of_store(name(found))
                        && wanted == b"end".as_slice()
            }
            LineRule::Reply => {
                has_name(wanted, b"entry".as_slice()) && share_pieces(5, found, wanted)
            }
            LineRule::Caller => is_other_in(b"caller".as_slice(), 1, found, wanted),
            LineRule::Entries => is_other_in(b"caller".as_slice(), 4, found, wanted),
            LineRule::Sequence => is_other_in(b"seq".as_slice(), 1, found, wanted),
            LineRule::TooMany => {
                has_name(wanted, b"seq".as_slice())
                    && has_name(found, b"caller".as_slice())
                    && has_more_pieces(found)
            }
            LineRule::Spelling => false,
        }
    }
}

/// What is wrong with a line that is not the wanted one.
pub(crate) fn line_rule(found: &[u8], wanted: &[u8]) -> LineRule
    ensures { IsTrueOfLine result found.now wanted.now }
{
    for rule in LineRule::EXACT {
        if rule.says(found, wanted) {
            return rule;
        }
    }
    LineRule::Spelling
}
