//! The laws of the bound of four programs, over definitions alone; each function's clause is the law.
ghost use Rattle.std.specs.Prelude.{◌≡◌, ◌≢◌, ◌+◌, ◌-◌, ◌*◌, ◌^◌, ◌<◌, ◌≤◌, ◌∷◌, [], List, ℕ, slice_get};
ghost use Rattle.trips_isa.specs.Machine.{State};
ghost use Rattle.block_predict.specs.Predicts.{Holding};
ghost use Rattle.commit_flush_spec.specs.InFlight.{opened};
ghost use Rattle.commit_flush_spec.specs.inside.Invariant.{AllGood};
ghost use Rattle.commit_flush_spec.specs.inside.Laws.{WindowOk};
ghost use Rattle.grid_cycle_spec.specs.Costs.{cost_in, cost_of, fetch_latency, greatest_cost};
ghost use Rattle.smt_spec.specs.Programs.{Four};
ghost use Rattle.smt_spec.specs.Parts.{Images};
ghost use Rattle.smt_spec.specs.Cycles.{Eager4, begun, going};
ghost use Rattle.smt_spec.specs.inside.Cycles.{AfterFours};
ghost use Rattle.smt_bound.specs.Costs.{of_all, spent_by_all};
ghost use Rattle.smt_bound.specs.inside.FourRule.{FourRule};
ghost use Rattle.smt_bound.specs.inside.Holding.{HeldFor};
ghost use Rattle.smt_bound.specs.inside.LeftOfFirst.{OneCycle};

use operand_net::Weather;

/// At the stated start the machine has its rule.
pub fn fours_begin_right<W: Weather>()
    ensures { (images : Images) (budget : ℕ) (states : ℕ → State) (predictors : ℕ → Holding) (weather : W)
        → ((q : ℕ) → q < 4 → WindowOk (images q) budget (opened (states q)))
        → FourRule images budget (begun states predictors weather) }
{}

/// A cycle keeps the rule: each program that is not over keeps the rule of a grid of its own, whatever place it has
/// among the four and whatever the others do. The only premise on the weather is that it holds nothing for more
/// than 3 cycles.
pub fn cycles_keep_the_rules<W: Weather>()
    ensures { (images : Images) (budget : ℕ) (g h : Four W) → ((q : ℕ) → q < 4 → AllGood (images q))
        → ((w : W) → W.next w ≤ 3) → FourRule images budget g → Eager4 W.next W.follows images budget g h
        → FourRule images budget h }
{}

/// The prime program gets on in every cycle: its next block is committed, or its run traps, or what is left for the
/// block falls, with the cycles for which the fetch unit works for another program.
pub fn prime_programs_get_on<W: Weather>()
    ensures { (images : Images) (budget k : ℕ) (g h : Four W) → ((q : ℕ) → q < 4 → AllGood (images q))
        → ((w : W) → W.next w ≤ 3) → FourRule images budget g → h.cycles < 2 ^ 64 - 1 → going budget g ≢ []
        → k < fetch_latency → HeldFor k g → Eager4 W.next W.follows images budget g h
        → OneCycle images budget k g h }
{}

/// Law four within cost: once all are over, a run from the stated start has made at most as many cycles as the four
/// may have cost, a trapped block of each among them. Before that it has made fewer than this and the cost of the
/// prime program's next block; so it ends within four times the greatest cost of a block for each block of the
/// budget.
pub fn four_within_cost<W: Weather>()
    ensures ends { (images : Images) (budget n : ℕ) (states : ℕ → State) (predictors : ℕ → Holding) (weather : W)
        (h : Four W) → ((q : ℕ) → q < 4 → AllGood (images q)) → ((w : W) → W.next w ≤ 3)
        → ((q : ℕ) → q < 4 → WindowOk (images q) budget (opened (states q)))
        → AfterFours W.next W.follows images budget n (begun states predictors weather) h → h.cycles < 2 ^ 64 - 1
        → going budget h ≡ []
        → n + of_all (λ q. cost_of (images q) (states q).trace) ≤ spent_by_all images h }
    ensures moment { (images : Images) (budget n : ℕ) (states : ℕ → State) (predictors : ℕ → Holding) (weather : W)
        (h : Four W) (p : ℕ) (ps : List ℕ) → ((q : ℕ) → q < 4 → AllGood (images q)) → ((w : W) → W.next w ≤ 3)
        → ((q : ℕ) → q < 4 → WindowOk (images q) budget (opened (states q)))
        → AfterFours W.next W.follows images budget n (begun states predictors weather) h → h.cycles < 2 ^ 64 - 1
        → going budget h ≡ p ∷ ps
        → n + of_all (λ q. cost_of (images q) (states q).trace)
        < spent_by_all images h + cost_in (slice_get (images p) (h.own p).window.state.next) }
    ensures bounded { (images : Images) (budget n : ℕ) (states : ℕ → State) (predictors : ℕ → Holding) (weather : W)
        (h : Four W) → ((q : ℕ) → q < 4 → AllGood (images q)) → ((w : W) → W.next w ≤ 3)
        → ((q : ℕ) → q < 4 → WindowOk (images q) budget (opened (states q)))
        → AfterFours W.next W.follows images budget n (begun states predictors weather) h → h.cycles < 2 ^ 64 - 1
        → going budget h ≢ [] → n < 4 * (greatest_cost * budget) }
{}
