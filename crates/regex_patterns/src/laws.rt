// Laws of the grammar.
ghost use Rattle.std.specs.Prelude.{◌≡◌, ◌↔◌, ℕ, List, Some, true};
ghost use Rattle.swc_lexical.specs.Runs.{is_at};
ghost use Rattle.regex_patterns.specs.declared.mode.Mode.{Mode};
ghost use Rattle.regex_patterns.specs.Sets.{set_class};
ghost use Rattle.regex_patterns.specs.ClassGrammar.{IsClass};

/// A class with the flag `v` takes so many units where the grammar derives it from these units, and only there.
pub fn class_by_grammar()
    ensures law { (m : Mode) (xs : List ℕ) (n : ℕ) → is_at xs 0 91 ≡ true → (set_class m xs ≡ Some n) ↔ IsClass m xs n }
{}
