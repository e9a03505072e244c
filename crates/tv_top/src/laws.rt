// What some forms of words ask for, carried by functions that do nothing.

ghost use Rattle.std.specs.Prelude.{◌≡◌, ◌∷◌, [], codes, false, true, Some, None};
ghost use Rattle.tv_top.specs.Tasks.{safety, termination, ctl, finitely, nothing_more, its_text, its_counts, its_trace, task_of};
ghost use Rattle.tv_top.specs.Forms.{asks, usual, limits};

/// Forms of words, and what they ask for.
pub fn listed_words()
    ensures termination { task_of (codes "--termination" ∷ []) ≡ Some (asks termination false nothing_more usual) }
    ensures safety { task_of (codes "--safety" ∷ codes "2" ∷ []) ≡ Some (asks (safety (codes "2")) false nothing_more usual) }
    ensures joined { task_of (codes "--ctl=-x > 0" ∷ []) ≡ Some (asks (ctl (codes "-x > 0")) false nothing_more usual) }
    ensures visited { task_of (codes "--finitely" ∷ codes "x > 0" ∷ []) ≡ Some (asks (finitely (codes "x > 0")) false nothing_more usual) }
    ensures written { task_of (codes "--termination" ∷ codes "--certificate" ∷ []) ≡ Some (asks termination false its_text usual) }
    ensures checked { task_of (codes "--check" ∷ codes "--ctl" ∷ codes "term" ∷ []) ≡ Some (asks (ctl (codes "term")) true nothing_more usual) }
    ensures behind { task_of (codes "--termination" ∷ codes "--check" ∷ []) ≡ Some (asks termination true nothing_more usual) }
    ensures numbers { task_of (codes "--splits" ∷ codes "128" ∷ codes "--termination" ∷ codes "--pivots=1" ∷ []) ≡
        Some (asks termination false nothing_more (limits 1 128 256)) }
    ensures generated { task_of (codes "--generate" ∷ codes "1000" ∷ []) ≡ Some (asks termination false (its_counts 1000) usual) }
    ensures traced { task_of (codes "--termination" ∷ codes "--trace" ∷ codes "1000" ∷ []) ≡ Some (asks termination false (its_trace 1000) usual) }
{}

/// Forms of words that ask for nothing.
pub fn refused_words()
    ensures none { task_of [] ≡ None }
    ensures no_property { task_of (codes "--check" ∷ []) ≡ None }
    ensures two_properties { task_of (codes "--termination" ∷ codes "--safety" ∷ codes "2" ∷ []) ≡ None }
    ensures twice { task_of (codes "--termination" ∷ codes "--termination" ∷ []) ≡ None }
    ensures read_and_written { task_of (codes "--check" ∷ codes "--certificate" ∷ codes "--termination" ∷ []) ≡ None }
    ensures no_bases { task_of (codes "--termination" ∷ codes "--pivots" ∷ codes "0" ∷ []) ≡ None }
    ensures sign { task_of (codes "--termination" ∷ codes "--pivots" ∷ codes "+1" ∷ []) ≡ None }
    ensures many_splits { task_of (codes "--termination" ∷ codes "--splits" ∷ codes "129" ∷ []) ≡ None }
    ensures many_pieces { task_of (codes "--termination" ∷ codes "--disjuncts" ∷ codes "4097" ∷ []) ≡ None }
    ensures no_loops { task_of (codes "--generate" ∷ codes "0" ∷ []) ≡ None }
    ensures many_loops { task_of (codes "--generate" ∷ codes "1001" ∷ []) ≡ None }
    ensures made_and_named { task_of (codes "--generate" ∷ codes "3" ∷ codes "--termination" ∷ []) ≡ None }
    ensures made_and_written { task_of (codes "--generate" ∷ codes "3" ∷ codes "--certificate" ∷ []) ≡ None }
    ensures made_and_checked { task_of (codes "--check" ∷ codes "--generate" ∷ codes "3" ∷ []) ≡ None }
    ensures no_states { task_of (codes "--termination" ∷ codes "--trace" ∷ codes "0" ∷ []) ≡ None }
    ensures many_states { task_of (codes "--termination" ∷ codes "--trace" ∷ codes "1001" ∷ []) ≡ None }
    ensures traced_alone { task_of (codes "--trace" ∷ codes "3" ∷ []) ≡ None }
    ensures traced_and_checked { task_of (codes "--termination" ∷ codes "--trace" ∷ codes "3" ∷ codes "--check" ∷ []) ≡ None }
    ensures traced_and_written { task_of (codes "--termination" ∷ codes "--trace" ∷ codes "3" ∷ codes "--certificate" ∷ []) ≡ None }
    ensures traced_formula { task_of (codes "--ctl" ∷ codes "term" ∷ codes "--trace" ∷ codes "3" ∷ []) ≡ None }
    ensures traced_and_made { task_of (codes "--generate" ∷ codes "3" ∷ codes "--trace" ∷ codes "3" ∷ []) ≡ None }
    ensures visited_and_checked { task_of (codes "--finitely" ∷ codes "x > 0" ∷ codes "--check" ∷ []) ≡ None }
    ensures visited_and_written { task_of (codes "--finitely" ∷ codes "x > 0" ∷ codes "--certificate" ∷ []) ≡ None }
    ensures visited_and_traced { task_of (codes "--finitely" ∷ codes "x > 0" ∷ codes "--trace" ∷ codes "3" ∷ []) ≡ None }
    ensures visited_and_made { task_of (codes "--generate" ∷ codes "3" ∷ codes "--finitely" ∷ codes "x > 0" ∷ []) ≡ None }
    ensures visited_and_named { task_of (codes "--finitely" ∷ codes "x > 0" ∷ codes "--termination" ∷ []) ≡ None }
    ensures help { task_of (codes "--help" ∷ []) ≡ None }
{}
