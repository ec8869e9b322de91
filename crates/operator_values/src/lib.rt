//! Values of the operators, as computed theorems; the crate has no code. `specs/` lists what each
//! operator gives at literals: at each pair of signs, by zero, past the width, at widths 1 and 128,
//! and for functions where their keys cover a finite domain and where they don't. The values were
//! computed by Z3 4.8.12 and by CVC4 1.8, which agree; each theorem says that the definition of
//! meaning computes to the same, so a definition with a line exchanged is refused here.
#![tactic(auto)]
