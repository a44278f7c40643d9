// The figures that were worked out by hand, proved of the definitions that the contracts use.
#![tactic(auto)]

ghost use Rattle.std.specs.Prelude.{◌≡◌, length};
ghost use Rattle.figures.specs.Figures.{figures, Agrees};
ghost use Rattle.figures.specs.LayerFigures.{layer_figures};
ghost use Rattle.figures.specs.Wrong.{wrong, AllBreak};

const LAYER_FIGURES: usize = 6;

const WRONG: usize = 2;

// Three functions, since the contract of each names a theorem of its own.

// How many figures the table has. Each is what the rules give.
pub fn worked_figures() -> usize
    ensures count { result ≡ length figures }
    ensures agree { Agrees figures }
{
    17
}

// How many figures the table of the layers has. Each is what the rules give.
pub fn worked_layer_figures() -> usize
    ensures count { result ≡ length layer_figures }
    ensures agree { Agrees layer_figures }
{
    LAYER_FIGURES
}

// How many functions are shown to look right and to break the law.
pub fn wrong_functions() -> usize
    ensures count { result ≡ length wrong }
    ensures break_law { AllBreak wrong }
{
    WRONG
}
