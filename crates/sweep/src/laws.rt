//! Laws of the definitions.
ghost use Rattle.std.specs.Prelude.{◌≡◌, ℕ, List};
ghost use Rattle.policy_kinds.specs.declared.kind.Kind.{Kind as AKind};
ghost use Rattle.sweep.specs.Laws.{AdoptersAreLeast};
ghost use Rattle.sweep.specs.Swept.{IsSwept};
ghost use Rattle.sweep.specs.declared.sweeps.Sweep.{Sweep as ASweep};
ghost use Rattle.sweep.specs.declared.trial.Fate.{Fate as AFate};

use crate::trial::Trial;

/// In each trial the adopters are the ASes with the least pairs of draw and number, each once.
pub fn adopters_are_least()
    ensures { AdoptersAreLeast }
{}

/// A line has one text, where each world has one number of each fate.
pub fn swept_texts_are_one<T: Trial>()
    ensures { (b : T.Base) (kinds : ℕ → AKind) (line : ASweep) →
        ((f : ℕ → AKind) (m n : AFate → ℕ) → T.AreNumbers b f line.round line.addr m →
        T.AreNumbers b f line.round line.addr n → (fate : AFate) → m fate ≡ n fate) → (x y : List ℕ) →
        IsSwept (T.ases b) (T.announcers b) (λ f. T.AreNumbers b f line.round line.addr) kinds line x →
        IsSwept (T.ases b) (T.announcers b) (λ f. T.AreNumbers b f line.round line.addr) kinds line y → x ≡ y }
{}
