//! Queries of matches that were answered.

ghost use Rattle.std.specs.Prelude.{◌≡◌, ◌≢◌, ◌++◌, ◌∷◌, [], All, Contains, IfOk, IfSome, IfNone, OnOk, OnErr};

use ask_core::Answer;
use claim_core::Query;
use indexmap::IndexMap;
use items::Items;
use std::alloc::{AllocError, Global};
use std::marker::Model;

/// Queries with their answers, found by the query. Contracts see it as the list of both, in the order in which they
/// were answered.
#[derive(Drop)]
pub struct AnswerMap {
    answers: IndexMap<Query, Answer>,
}

impl Model for AnswerMap {
    ghost use Rattle.std.specs.Prelude.{List, map};
    ghost use Rattle.fact_tests.specs.Kept.{Kept, kept_of};

    ghost Value = { List Kept };

    ghost view = { λ a. map kept_of a.answers.entries };
}

impl AnswerMap {
    /// No answers.
    pub fn new(alloc: Global) -> AnswerMap
        ensures { result ≡ [] }
    {
        AnswerMap {
            answers: IndexMap::new(alloc),
        }
    }

    /// The answer of a query, where it is among those that were answered.
    pub fn get(&self, query: &Query) -> Option<&Answer>
        ensures found { IfSome result (λ answer.
            Contains self.now (record { query = query.now; answer = answer.now })) }
        ensures none { IfNone result (All (λ entry. entry.query ≢ query.now) self.now) }
    {
        self.answers.get(query)
    }

    /// Adds the answer of a query that has none. A refusal changes nothing.
    pub fn add(&mut self, query: Query, answer: Answer) -> Result<(), AllocError>
        requires { All (λ entry. entry.query ≢ query) self.old }
        ensures added { OnOk result (self.new ≡ self.old ++ record { query = query; answer = answer } ∷ []) }
        ensures refused { OnErr result (self.new ≡ self.old) }
    {
        self.answers.insert(query, answer)?;
        Ok(())
    }
}

/// An equal answer.
pub fn copied(alloc: Global, answer: &Answer) -> Result<Answer, AllocError>
    ensures { IfOk result (λ copy. copy ≡ answer.now) }
{
    match answer {
        Answer::Vector(vector) => Ok(Answer::Vector(Items::from_slice(alloc, vector)?)),
        Answer::Refuted(log) => Ok(Answer::Refuted(log.copy(alloc)?)),
    }
}
