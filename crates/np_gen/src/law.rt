//! Laws on the definitions. Nothing here runs: each function states a theorem.

ghost use Rattle.std.specs.Prelude.{◌≡◌, ◌/◌, ℕ, filter, length};
ghost use Rattle.np_gen.specs.Site.{next_state, draw, asks_for_nine, drill_site};

/// The draw from state 1, and the state after it.
pub fn a_worked_draw()
    ensures state { next_state 1 ≡ 7806831264735756412 }
    ensures value { draw 1 ≡ 908834774 }
{}

/// One job in ten asks for nine nodes, which is more than any pool of the site may have.
pub fn one_job_in_ten_asks_for_nine()
    ensures { (n : ℕ) → length (filter asks_for_nine (drill_site n).jobs) ≡ n / 10 }
{}
