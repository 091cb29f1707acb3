//! That a problem, a start and a percentage have one answer.
ghost use Rattle.std.specs.Prelude.{ℕ, List};
ghost use Rattle.plan_model.specs.declared.model.Moment.{Moment as Instant};
ghost use Rattle.plan_model.specs.declared.model.Query.{Query as QueryParts};
ghost use Rattle.journey_model.specs.declared.problem.Problem.{Problem as ProblemParts};
ghost use Rattle.journey_report.specs.Findings.{Findings};
ghost use Rattle.journey_answers.specs.Answers.{IsQueryOf, InQuery, HasNoSafe, AnswersSafe, AnswersPlan, AnswersExpand};
ghost use Rattle.journey_answers.specs.Punctual.{AnswersPunctual};
ghost use Rattle.run_laws.specs.OneRun.{IsOneAnswer};

/// Two answers of `safe` over one problem are one.
pub fn one_safe_answer()
    ensures { (p : ProblemParts) (found others : Findings) (text other : List ℕ) (start alpha : ℕ)
        → InQuery p start alpha (AnswersSafe p found text) → InQuery p start alpha (AnswersSafe p others other)
        → IsOneAnswer found others text other }
{}

/// Two answers of `plan` over one problem are one.
pub fn one_plan_answer()
    ensures { (p : ProblemParts) (found others : Findings) (text other : List ℕ) (start alpha : ℕ)
        → InQuery p start alpha (AnswersPlan p found text) → InQuery p start alpha (AnswersPlan p others other)
        → IsOneAnswer found others text other }
{}

/// Two answers of `expand` over one problem are one.
pub fn one_expanded_answer()
    ensures { (p : ProblemParts) (found others : Findings) (text other : List ℕ) (start alpha : ℕ)
        → InQuery p start alpha (AnswersExpand p found text) → InQuery p start alpha (AnswersExpand p others other)
        → IsOneAnswer found others text other }
{}

/// Two answers of `punctual` over one problem are one.
pub fn one_punctual_answer()
    ensures { (p : ProblemParts) (found others : Findings) (text other : List ℕ) (promise start alpha : ℕ)
        → InQuery p start alpha (AnswersPunctual p promise found text)
        → InQuery p start alpha (AnswersPunctual p promise others other) → IsOneAnswer found others text other }
{}

/// Where one call has a query, another does not find that no strategy is safe.
pub fn a_query_has_a_safe_strategy()
    ensures { (p : ProblemParts) (start alpha : ℕ) (query : QueryParts) (worst : Instant)
        → IsQueryOf p start alpha query worst → HasNoSafe p start → ⊥ }
{}
