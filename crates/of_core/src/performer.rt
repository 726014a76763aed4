//! What becomes of a step that a machine wants: it is named, or it is made on the words of a table.

ghost use Rattle.std.specs.Prelude.{◌≡◌, ◌<◌, length};
ghost use Rattle.std.proofs.Common.{get_or};
ghost use Rattle.std.specs.Vec.{with_items};
ghost use Rattle.of_core.specs.declared.place.Op.{Op};
ghost use Rattle.of_core.specs.declared.place.Op.TheVariants.{Load, Store, Exchange, Raise};
ghost use Rattle.of_core.specs.Steps.{word_of, words_after};

use crate::place::Op;

/// A way to perform the steps that a machine names, such as on the words of a bank. The function
/// `Machine::perform` has a form of the step of each place, and is written only once for all
/// performers.
pub trait Performer {
    /// What the performer gives for a step, such as the word that the step found.
    type Given;

    /// What the performer makes its steps on, such as the words of a bank. A step may change it.
    type Hand;

    // `takes` says which steps the performer may be given, and `made` what holds after a step: of
    // what the performer gave, and of the hand before and after the step
    ghost takes: { Self → Self.Hand → Op → Type 0 };

    ghost made: { Self → Self.Hand → Op → Self.Given → Self.Hand → Type 0 };

    /// Performs a load of a word.
    fn load(&self, hand: &mut Self::Hand, word: u32) -> Self::Given
        requires { takes self.now hand.old (Load word) }
        ensures { made self.now hand.old (Load word) result hand.new };

    /// Performs a store: the word becomes `value`.
    fn store(&self, hand: &mut Self::Hand, word: u32, value: u64) -> Self::Given
        requires { takes self.now hand.old (Store word value) }
        ensures { made self.now hand.old (Store word value) result hand.new };

    /// Performs an exchange: the word becomes `new` if it is `old`, and stays otherwise.
    fn exchange(&self, hand: &mut Self::Hand, word: u32, old: u64, new: u64) -> Self::Given
        requires { takes self.now hand.old (Exchange word old new) }
        ensures { made self.now hand.old (Exchange word old new) result hand.new };

    /// Performs a raise: the word becomes the greater of itself and `value`.
    fn raise(&self, hand: &mut Self::Hand, word: u32, value: u64) -> Self::Given
        requires { takes self.now hand.old (Raise word value) }
        ensures { made self.now hand.old (Raise word value) result hand.new };
}

/// The performer that makes no step, and gives the step itself.
#[derive(Clone, Copy)]
pub(crate) struct NameStep;

impl Performer for NameStep {
    type Given = Op;

    type Hand = ();

    ghost takes = { λ s hand op. Unit {0} };

    ghost made = { λ s hand op given after. given ≡ op };

    #[inline(always)]
    fn load(&self, _hand: &mut (), word: u32) -> Op {
        Op::Load { word }
    }

    #[inline(always)]
    fn store(&self, _hand: &mut (), word: u32, value: u64) -> Op {
        Op::Store { word, value }
    }

    #[inline(always)]
    fn exchange(&self, _hand: &mut (), word: u32, old: u64, new: u64) -> Op {
        Op::Exchange { word, old, new }
    }

    #[inline(always)]
    fn raise(&self, _hand: &mut (), word: u32, value: u64) -> Op {
        Op::Raise { word, value }
    }
}

/// The performer that makes the step on a list of words, and gives the word that the step found.
#[derive(Clone, Copy)]
pub(crate) struct OnWords;

impl Performer for OnWords {
    type Given = u64;

    type Hand = Vec<u64>;

    ghost takes = { λ s words op. word_of op < length words.items };

    ghost made = { λ s words op found after. (found ≡ get_or words.items (word_of op) 0)
        × (after ≡ with_items words (words_after op words.items)) };

    #[inline(always)]
    fn load(&self, hand: &mut Vec<u64>, word: u32) -> u64 {
        load_on(hand.as_mut_slice(), word)
    }

    #[inline(always)]
    fn store(&self, hand: &mut Vec<u64>, word: u32, value: u64) -> u64 {
        store_on(hand.as_mut_slice(), word, value)
    }

    #[inline(always)]
    fn exchange(&self, hand: &mut Vec<u64>, word: u32, old: u64, new: u64) -> u64 {
        exchange_on(hand.as_mut_slice(), word, old, new)
    }

    #[inline(always)]
    fn raise(&self, hand: &mut Vec<u64>, word: u32, value: u64) -> u64 {
        raise_on(hand.as_mut_slice(), word, value)
    }
}

/// Makes a load, and gives the word that it found. The words stay as they are.
#[inline(always)]
fn load_on(words: &mut [u64], word: u32) -> u64
    requires { word < length words.old }
    ensures found { result ≡ get_or words.old word 0 }
    ensures after { words.new ≡ words_after (Load word) words.old }
{
    words[word as usize]
}

/// Makes a store, and gives the word that it found.
#[inline(always)]
fn store_on(words: &mut [u64], word: u32, value: u64) -> u64
    requires { word < length words.old }
    ensures found { result ≡ get_or words.old word 0 }
    ensures after { words.new ≡ words_after (Store word value) words.old }
{
    let found = words[word as usize];
    words[word as usize] = value;
    found
}

/// Makes an exchange, and gives the word that it found.
#[inline(always)]
fn exchange_on(words: &mut [u64], word: u32, old: u64, new: u64) -> u64
    requires { word < length words.old }
    ensures found { result ≡ get_or words.old word 0 }
    ensures after { words.new ≡ words_after (Exchange word old new) words.old }
{
    let found = words[word as usize];
    if found == old {
        words[word as usize] = new;
    }
    found
}

/// Makes a raise, and gives the word that it found.
#[inline(always)]
fn raise_on(words: &mut [u64], word: u32, value: u64) -> u64
    requires { word < length words.old }
    ensures found { result ≡ get_or words.old word 0 }
    ensures after { words.new ≡ words_after (Raise word value) words.old }
{
    let found = words[word as usize];
    words[word as usize] = found.max(value);
    found
}
