//! A graph with its closure.
ghost use Rattle.std.specs.Prelude.{◌≡◌, ◌≢◌, ◌↔◌, ◌⊎◌, ◌*◌, ◌<◌, ◌≤◌, ℕ, [], IsTrue, length, OnOk, OnErr, IfOk};
ghost use Rattle.bit_rows.specs.Rows.{has_bit};
ghost use Rattle.reach_bits.specs.Graph.{HasEdge, Leads, has_edge, room};

use crate::row::Row;
use crate::rows::{join, put_leading, widened};
use crate::settling::settle;
use std::alloc::{AllocError, Global};
use std::marker::Model;

/// Numbers are below this one.
pub const MOST: usize = 8_192;

/// A directed graph without cycles over numbers below `MOST`, with what its edges lead to.
///
/// A number leads to another if one edge or more go from the first to the second. This is kept for each number as a row of bits,
/// and updated with each edge, so that `leads` takes constant time. Only `grow` and `copy` allocate. In contracts the value is the
/// edges: `has_edge` says which there are, and those are of numbers below `room`.
#[derive(Drop)]
pub struct Reach {
    edges: Vec<Row>,
    // For each number those that its edges lead to.
    closure: Vec<Row>,
    // What a removal uses: the numbers whose rows are to be made anew, a row in the making, and where to go on after each.
    pending: Row,
    made: Row,
    back: Vec<usize>,
}

impl Model for Reach {
    ghost use Rattle.std.specs.Prelude.{vec_len};
    ghost use Rattle.reach_bits.specs.Graph.{Graph};
    ghost use Rattle.reach_bits.specs.private.Closing.{IsReach};

    ghost Value = { Graph };

    ghost view = { λ reach. reach.edges.items };

    ghost invariant = { λ reach. IsReach reach.edges.items reach.closure.items reach.pending reach.made (vec_len reach.back) };
}

impl Reach {
    /// The graph without edges and without room. It doesn't allocate.
    pub fn new(alloc: Global) -> Reach
        ensures { result ≡ [] }
    {
        Reach {
            edges: Vec::new(alloc),
            closure: Vec::new(alloc),
            pending: Row::new(alloc),
            made: Row::new(alloc),
            back: Vec::new(alloc),
        }
    }

    /// The numbers below this one can have edges.
    pub fn room(&self) -> usize
        ensures { result ≡ room self.now }
    {
        self.edges.len()
    }

    /// Makes room for the numbers below `count`, which is at most `MOST`. There may be room for more then.
    ///
    /// # Errors
    ///
    /// `AllocError` if an allocation failed. Edges and room are kept then.
    pub fn grow(&mut self, count: usize) -> Result<(), AllocError>
        requires { count ≤ MOST }
        ensures ok { OnOk result (count ≤ room self.new) }
        ensures room { room self.old ≤ room self.new }
        ensures most { room self.new ≤ MOST }
        ensures same { (a b : ℕ) → has_edge self.new a b ≡ has_edge self.old a b }
        ensures err { OnErr result (self.new ≡ self.old) }
    {
        if count <= self.room() {
            return Ok(());
        }
        let words = words_for(count, self.pending.word_count());
        let alloc = *self.edges.allocator();
        *self = self.widened(alloc, words)?;
        Ok(())
    }

    /// A copy of the graph, in memory of its own.
    ///
    /// # Errors
    ///
    /// `AllocError` if an allocation failed.
    pub fn copy(&self, alloc: Global) -> Result<Reach, AllocError>
        ensures same { IfOk result (λ copy. (a b : ℕ) → has_edge copy a b ≡ has_edge self.now a b) }
        ensures room { IfOk result (λ copy. room copy ≡ room self.now) }
    {
        self.widened(alloc, self.pending.word_count())
    }

    // A copy of the graph with rows of this many words.
    fn widened(&self, alloc: Global, words: usize) -> Result<Reach, AllocError>
        requires more { room self.now ≤ 64 * words }
        requires most { words ≤ 128 }
        ensures same { IfOk result (λ copy. (a b : ℕ) → has_edge copy a b ≡ has_edge self.now a b) }
        ensures room { IfOk result (λ copy. room copy ≡ 64 * words) }
    {
        Ok(Reach {
            edges: widened(alloc, &self.edges, words)?,
            closure: widened(alloc, &self.closure, words)?,
            pending: Row::empty(alloc, words)?,
            made: Row::empty(alloc, words)?,
            back: vec![in alloc; 0; 64 * words]?,
        })
    }

    /// Whether the edges lead from `a` to `b`. It takes constant time.
    pub fn leads(&self, a: usize, b: usize) -> bool
        requires a { a < room self.now }
        requires b { b < room self.now }
        ensures leads { IsTrue result ↔ Leads (HasEdge self.now) a b }
        ensures acyclic { (x : ℕ) → Leads (HasEdge self.now) x x → ⊥ }
    {
        self.closure[a].has(b)
    }

    /// The numbers that edges lead to from `a` at once.
    pub fn edges_from(&self, a: usize) -> &Row
        requires { a < room self.now }
        ensures { (b : ℕ) → has_bit result.now b ≡ has_edge self.now a b }
    {
        &self.edges[a]
    }

    /// The numbers that `a` leads to.
    pub fn row(&self, a: usize) -> &Row
        requires { a < room self.now }
        ensures { (b : ℕ) → IsTrue (has_bit result.now b) ↔ Leads (HasEdge self.now) a b }
    {
        &self.closure[a]
    }

    /// Adds the edge from `a` to `b`, which is not `a` and does not lead to it. It doesn't allocate.
    ///
    /// Its time grows with the number of words of the rows that it changes.
    pub fn add(&mut self, a: usize, b: usize)
        requires a { a < room self.old }
        requires b { b < room self.old }
        requires apart { a ≢ b }
        requires acyclic { Leads (HasEdge self.old) b a → ⊥ }
        ensures edges { (x y : ℕ) → HasEdge self.new x y ↔ (HasEdge self.old x y ⊎ ((x ≡ a) × (y ≡ b))) }
        ensures room { room self.new ≡ room self.old }
    {
        self.made.set(&self.closure[b]);
        self.made.put(b);
        join(&mut self.closure, a, &self.made);
        self.edges[a].put(b);
    }

    /// Removes the edge from `a` to `b`, if there is one. It doesn't allocate.
    ///
    /// The rows of `a` and of the numbers that lead to it are made anew, each once.
    pub fn remove(&mut self, a: usize, b: usize)
        requires a { a < room self.old }
        requires b { b < room self.old }
        ensures edges { (x y : ℕ) → HasEdge self.new x y ↔ (HasEdge self.old x y × ((x ≡ a) × (y ≡ b) → ⊥)) }
        ensures room { room self.new ≡ room self.old }
    {
        self.edges[a].take(b);
        put_leading(&self.closure, a, &mut self.pending);
        settle(
            &self.edges,
            &mut self.closure,
            &mut self.pending,
            &mut self.made,
            &mut self.back,
        );
    }
}

// How many words rows need for the numbers below `count`: at least twice as many as before, so that room is seldom made.
fn words_for(count: usize, before: usize) -> usize
    requires count { count ≤ MOST }
    requires before { before ≤ 128 }
    ensures enough { count ≤ 64 * result }
    ensures more { before ≤ result }
    ensures most { result ≤ 128 }
{
    count.div_ceil(64).max((2 * before).min(MOST / 64))
}
