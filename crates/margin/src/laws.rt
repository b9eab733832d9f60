//! What stands of the three rules.
ghost use Rattle.std.specs.Prelude.{◌≡◌, ℕ, ◌≤◌, replicate};
ghost use Rattle.margin.specs.declared.flat.Flat.{Flat};
ghost use Rattle.margin.specs.Question.{Answers};
ghost use Rattle.margin.specs.Laws.{Lawful, Grows, Alike, AsksNothing};
ghost use Rattle.margin.specs.Rules.{flat_rule, portion, RoundedUp, share_rule, additional_rule};
ghost use Rattle.margin.specs.Flats.{table, flat_asks};

/// Each rule keeps the laws, additional over any rule that does; under flat and share more contracts never ask less.
/// A flat rule with one tariff for all series asks that, and a new one nothing. A portion is rounded up.
pub fn rules_stand()
    ensures flat { (rule : Flat) → Lawful (flat_asks rule) × Grows (flat_asks rule) }
    ensures uniform { (rule : Flat) (initial minimum : ℕ) → table rule ≡ replicate 24 (initial, minimum) → Alike (flat_asks rule) (flat_rule (λ _. (initial, minimum))) }
    ensures nothing { (rule : Flat) → table rule ≡ replicate 24 (0, 0) → AsksNothing (flat_asks rule) }
    ensures share { (rate part : ℕ) → rate ≤ 10000 → part ≤ 10000 → Lawful (share_rule rate part) × Grows (share_rule rate part) }
    ensures rounded { (amount parts : ℕ) → RoundedUp amount parts (portion amount parts) }
    ensures additional { (extra : ℕ) (A : Answers) → Lawful A → Lawful (additional_rule extra A) }
{}
