//! The words of expressions.

ghost use Rattle.std.specs.Prelude.{◌≡◌, IfSome, IfNone};
ghost use Rattle.set_expr.specs.Fronts.{head_text};
ghost use Rattle.set_expr.specs.Spelling.{word_text, call_text, pair_text};
ghost use Rattle.set_expr.specs.declared.words.Call.TheVariants.{Parents, Children, Ancestors, Descendants, Heads, Roots, Tips, Merges, Common, Gca, Line};

/// A set that one word names.
#[derive(Clone, Copy, Debug, PartialEq, Eq)]
pub enum Word {
    /// Every commit.
    All,
    /// The commits of the master group.
    Master,
    /// The commits of the other group.
    Others,
}

/// What is made of one set.
#[derive(Clone, Copy, Debug, PartialEq, Eq)]
pub enum Call {
    /// The parents of members.
    Parents,
    /// The commits with a member among their parents.
    Children,
    /// What some member reaches along parents, the members included.
    Ancestors,
    /// What reaches some member, the members included.
    Descendants,
    /// The members that are no parent of a member.
    Heads,
    /// The members with no parent among the members.
    Roots,
    /// The members that no other member reaches.
    Tips,
    /// The members with two or more parents.
    Merges,
    /// What every member reaches, nothing where there is no member.
    Common,
    /// The heads of what every member reaches.
    Gca,
    /// What some member reaches by first parents alone, the members included.
    Line,
}

/// What is made of two sets.
#[derive(Clone, Copy, Debug, PartialEq, Eq)]
pub enum PairCall {
    /// What reaches some member of the first and is reached by some member of the second.
    Range,
    /// The ancestors of the first that are no ancestors of the second.
    Only,
    /// The members of either.
    Union,
    /// The members of both.
    Inter,
    /// The members of the first that are not of the second.
    Minus,
}

/// What a bracket opens, by the word before it.
#[derive(Clone, Copy, Debug, PartialEq, Eq)]
pub enum Head {
    /// A call of one set.
    Of(Call),
    /// A call of two sets.
    OfTwo(PairCall),
    /// A commit and how many first parents to go up.
    Up,
    /// A set and how many of its members to take.
    Top,
}

/// The set whose word the text is.
pub(crate) fn word_of(text: &[u8]) -> Option<Word>
    ensures some { IfSome result (λ word. text.now ≡ word_text word) }
    ensures none { IfNone result ((word : Word) → ¬ (text.now ≡ word_text word)) }
{
    if text == b"all".as_slice() {
        Some(Word::All)
    } else if text == b"master".as_slice() {
        Some(Word::Master)
    } else if text == b"others".as_slice() {
        Some(Word::Others)
    } else {
        None
    }
}

/// The call of one set whose word the text is, of those that go along parents.
fn walk_of(text: &[u8]) -> Option<Call>
    ensures some { IfSome result (λ call. text.now ≡ call_text call) }
    ensures none { IfNone result (¬ (text.now ≡ call_text Parents) × ¬ (text.now ≡ call_text Children) × ¬ (text.now ≡ call_text Ancestors) × ¬ (text.now ≡ call_text Descendants)
        × ¬ (text.now ≡ call_text Line)) }
{
    if text == b"parents".as_slice() {
        Some(Call::Parents)
    } else if text == b"children".as_slice() {
        Some(Call::Children)
    } else if text == b"ancestors".as_slice() {
        Some(Call::Ancestors)
    } else if text == b"descendants".as_slice() {
        Some(Call::Descendants)
    } else if text == b"line".as_slice() {
        Some(Call::Line)
    } else {
        None
    }
}

/// The call of one set whose word the text is, of those that pick members or what all of them reach.
fn pick_of(text: &[u8]) -> Option<Call>
    ensures some { IfSome result (λ call. text.now ≡ call_text call) }
    ensures none { IfNone result (¬ (text.now ≡ call_text Heads) × ¬ (text.now ≡ call_text Roots) × ¬ (text.now ≡ call_text Tips) × ¬ (text.now ≡ call_text Merges)
        × ¬ (text.now ≡ call_text Common) × ¬ (text.now ≡ call_text Gca)) }
{
    if text == b"heads".as_slice() {
        Some(Call::Heads)
    } else if text == b"roots".as_slice() {
        Some(Call::Roots)
    } else if text == b"tips".as_slice() {
        Some(Call::Tips)
    } else if text == b"merges".as_slice() {
        Some(Call::Merges)
    } else if text == b"common".as_slice() {
        Some(Call::Common)
    } else if text == b"gca".as_slice() {
        Some(Call::Gca)
    } else {
        None
    }
}

/// The call of one set whose word the text is.
fn call_of(text: &[u8]) -> Option<Call>
    ensures some { IfSome result (λ call. text.now ≡ call_text call) }
    ensures none { IfNone result ((call : Call) → ¬ (text.now ≡ call_text call)) }
{
    if let Some(call) = walk_of(text) {
        return Some(call);
    }
    if let Some(call) = pick_of(text) {
        return Some(call);
    }
    None
}

/// The call of two sets whose word the text is.
fn pair_of(text: &[u8]) -> Option<PairCall>
    ensures some { IfSome result (λ call. text.now ≡ pair_text call) }
    ensures none { IfNone result ((call : PairCall) → ¬ (text.now ≡ pair_text call)) }
{
    if text == b"range".as_slice() {
        Some(PairCall::Range)
    } else if text == b"only".as_slice() {
        Some(PairCall::Only)
    } else if text == b"union".as_slice() {
        Some(PairCall::Union)
    } else if text == b"inter".as_slice() {
        Some(PairCall::Inter)
    } else if text == b"minus".as_slice() {
        Some(PairCall::Minus)
    } else {
        None
    }
}

/// What the word opens.
pub(crate) fn head_of(text: &[u8]) -> Option<Head>
    ensures some { IfSome result (λ head. text.now ≡ head_text head) }
    ensures none { IfNone result ((head : Head) → ¬ (text.now ≡ head_text head)) }
{
    if let Some(call) = call_of(text) {
        return Some(Head::Of(call));
    }
    if let Some(call) = pair_of(text) {
        return Some(Head::OfTwo(call));
    }
    if text == b"up".as_slice() {
        Some(Head::Up)
    } else if text == b"top".as_slice() {
        Some(Head::Top)
    } else {
        None
    }
}
