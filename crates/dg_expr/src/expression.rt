ghost use Rattle.std.specs.Prelude.{◌≡◌, ◌≤◌, ◌<◌, ◌+◌, ◌++◌, ◌∷◌, [], length, map, take, if◌then◌else◌, nat_eq, IsTrue};
ghost use Rattle.std.specs.List.{list_any};
ghost use Rattle.dg_expr.specs.Expressions.{is_expression, instants_of, times_in, times_of, words_of};
ghost use Rattle.dg_expr.specs.Rests.{added, place_of, placed_word};

/// The most instants of an expression, each counted as often as it comes.
pub const EXPRESSION_TIMES_MAX: usize = 8;

/// The most words of an expression.
pub const EXPRESSION_WORDS_MAX: usize = 31;

/// A word of an expression. An operator stands before what it joins.
#[derive(Clone, Copy, PartialEq, Eq)]
pub enum Word {
    /// True of an element that is in the graph as of this instant.
    Time(u64),
    /// The next expression does not hold.
    Not,
    /// The next two expressions hold.
    And,
    /// One of the next two expressions holds, or both.
    Or,
}

/// An expression over instants: the first `count` of the words. The other words are the instant 0.
#[derive(Clone, Copy)]
pub struct Expr {
    pub words: [Word; EXPRESSION_WORDS_MAX],
    pub count: u8,
}

/// The distinct instants of an expression, in the order in which they first come: the first `count`
/// of these. The others are 0.
#[derive(Clone, Copy)]
pub struct Instants {
    pub times: [u64; EXPRESSION_TIMES_MAX],
    pub count: u8,
}

impl Expr {
    /// The distinct instants of the expression, in the order in which they first come. Takes no
    /// memory.
    pub fn instants(&self) -> Instants
        requires expression { IsTrue (is_expression (words_of self.now)) }
        requires words { self.now.count ≤ EXPRESSION_WORDS_MAX }
        ensures times { times_of result ≡ instants_of (words_of self.now) }
        ensures count { result.count ≤ EXPRESSION_TIMES_MAX }
    {
        let mut instants = Instants {
            times: [0; EXPRESSION_TIMES_MAX],
            count: 0,
        };
        for i in 0..self.count as usize {
            instants.add(self.words[i]);
        }
        instants
    }

    /// The expression over the places of its instants among these.
    pub(crate) fn placed(&self, instants: &Instants) -> Expr
        requires words { self.now.count ≤ EXPRESSION_WORDS_MAX }
        requires times { instants.now.count ≤ EXPRESSION_TIMES_MAX }
        ensures words { words_of result ≡ map (placed_word (times_of instants.now)) (words_of self.now) }
        ensures count { result.count ≡ self.now.count }
    {
        let times = &instants.times[..instants.count as usize];
        let mut words = self.words;
        for i in 0..words.len() {
            words[i] = placed(self.words[i], times);
        }
        Expr {
            words,
            count: self.count,
        }
    }
}

impl Instants {
    // Adds the word's instant behind the others, unless it has none or it is among them.
    fn add(&mut self, word: Word)
        requires { self.old.count + length (times_in (word ∷ [])) ≤ EXPRESSION_TIMES_MAX }
        ensures times { times_of self.new ≡ added (times_of self.old) (times_in (word ∷ [])) }
        ensures count { self.new.count ≤ self.old.count + length (times_in (word ∷ [])) }
    {
        match word {
            Word::Time(t) => self.add_time(t),
            Word::Not | Word::And | Word::Or => {}
        }
    }

    // Adds the instant behind the others, unless it is among them.
    fn add_time(&mut self, t: u64)
        requires { self.old.count < EXPRESSION_TIMES_MAX }
        ensures times { times_of self.new ≡ added (times_of self.old) (t ∷ []) }
        ensures count { self.new.count ≤ self.old.count + 1 }
    {
        let count = self.count as usize;
        if has(&self.times[..count], t) {
            return;
        }
        self.times[count] = t;
        self.count += 1;
    }
}

// Whether the instant is among these.
fn has(times: &[u64], t: u64) -> bool
    ensures { result ≡ list_any (λ u. nat_eq u t) times.now }
{
    times.iter().any(|u| *u == t)
}

// The word with the place of its instant among these in the instant's stead.
fn placed(word: Word, times: &[u64]) -> Word
    ensures { result ≡ placed_word times.now word }
{
    match word {
        Word::Time(t) => Word::Time(place(t, times) as u64),
        other => other,
    }
}

// The place of the instant among these, or their number where it is not there.
fn place(t: u64, times: &[u64]) -> usize
    ensures { result ≡ place_of t times.now }
{
    for i in 0..times.len() {
        if times[i] == t {
            return i;
        }
    }
    times.len()
}
