/// Counts x down to 0.
pub const COUNTDOWN: &str = "START: 0; FROM: 0; TO: 1; FROM: 1; assume(x > 0); x := x - 1; TO: 1;";

/// Counts x up for ever, once it is above 0.
pub const CLIMBER: &str = "START: 0; FROM: 0; TO: 1; FROM: 1; assume(x > 0); x := x + 1; TO: 1;";

/// Counts x down at its one location.
pub const LOOP: &str = "START: 0; FROM: 0; assume(x > 0); x := x - 1; TO: 0;";

/// Keeps x as it is, at its one location.
pub const STANDING: &str = "START: 0; FROM: 0; x := x; TO: 0;";

/// Turns the sign of x at 1, as long as it is positive.
pub const TURNING: &str = "START: 0; FROM: 0; TO: 1; FROM: 1; assume(x > 0); x := -x; TO: 1;";

/// The same, with another location that it can come to from 1.
pub const EXITING: &str =
    "START: 0; FROM: 0; TO: 1; FROM: 1; assume(x > 0); x := -x; TO: 1; FROM: 1; assume(x > 0); x := -x; TO: 2;";

/// A certificate that the countdown ends, by the ranks 1, 0 and 0, x; up to the last multipliers.
pub const ENDED: &str =
    "T2CERT 1\nproved\nnode term 2 2\npiece 0 go 0\nrank 0 1\nrank 0 0\npiece 1 go 0\nrank 0 0\nrank 1 0\ninto 0 1\nby 1\nby 1\ninto 0 2\nby 0 1\nby 0 1\n";

/// A run of the climber is endless; up to its last values.
pub const ENDLESS: &str =
    "T2CERT 1\ndisproved\nnode noterm 2 0\npiece 0 go 1\nrow -1 1\npiece 1 go 1\nrow -1 1\ntake 0 0 0\nby 1 1\ntake 1 0 0\nby 1 1\nby 1 1\n";

/// A certificate that x comes to 0 or below on every run of the loop, by a choice and a split.
pub const DOWN: &str =
    "T2CERT 1\nproved\nnode fix 2 1\npiece 0 done 1\nrow 1 0\npiece 0 go 1\nrow -1 1\nrank 1 0\nnode atom 1 0\npiece 0 go 0\ninto 0 0\nnode atom 1 0\npiece 0 go 1\nrow 1 0\ninto 0 0\nby 1 1\ninto 0 0\nby 1 1\ninto 0 0\ntake 0 0 0\nby 1 1\nsplit 1 -1\ninto 0 0\nby 0 0 1 1\ninto 1 1\nby 0 0 1 1\nby 0 0 0 1\nby 1 0 0 1\nsplit 1 0\ninto 0 0\nby 1 1\ninto 1 0\n";

/// A certificate that x never comes below 0 on some run of the loop, which stops at 0; up to the guard of the step.
pub const NEVER_BELOW: &str =
    "T2CERT 1\ndisproved\nnode fix 1 0\npiece 0 go 1\nrow -1 0\nnode atom 0 0\nnode atom 1 0\npiece 0 go 1\nrow -1 0\ninto 0 0\nby 1 1\ninto 0 0\nby 1 1\nsplit 1 0\nnostep\nempty 0 1 1\ntake 0 0 0\n";

/// A certificate that x stays at most 5 on some run of the program that keeps it, up to the cover that the piece of the root lies in
/// that of its second child.
pub const STAYING: &str =
    "T2CERT 1\ndisproved\nnode fix 1 0\npiece 0 go 1\nrow 1 -5\nnode atom 0 0\nnode atom 1 0\npiece 0 go 1\nrow 1 -5\ninto 0 0\nby 1 1\n";
