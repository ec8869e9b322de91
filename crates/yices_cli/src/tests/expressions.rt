//! Expressions, assumptions, cores and refusals, with their replies by hand: verdicts by truth tables, places by counting bytes.

use crate::tests::Row;

/// The values of each word, laws that hold of them, and formulas that force values.
pub const OPERATORS: [Row; 22] = [
    // Values.
    (
        "(check)(eval (not true))(eval (not false))(eval (not (not false)))",
        0,
        "sat\nfalse\ntrue\nfalse\n",
        "",
    ),
    (
        "(check)(eval (and true true))(eval (and true false))(eval (and true true false true))(eval (and false))",
        0,
        "sat\ntrue\nfalse\nfalse\nfalse\n",
        "",
    ),
    (
        "(check)(eval (or false false))(eval (or false true))(eval (or false false true false))(eval (or true))",
        0,
        "sat\nfalse\ntrue\ntrue\ntrue\n",
        "",
    ),
    (
        "(check)(eval (xor false))(eval (xor true))(eval (xor true true))(eval (xor true false true))(eval (xor true true true))",
        0,
        "sat\nfalse\ntrue\nfalse\nfalse\ntrue\n",
        "",
    ),
    (
        "(check)(eval (=> false false))(eval (=> false true))(eval (=> true false))(eval (=> true true))",
        0,
        "sat\ntrue\ntrue\nfalse\ntrue\n",
        "",
    ),
    (
        "(check)(eval (<=> false false))(eval (<=> false true))(eval (<=> true false))(eval (<=> true true))",
        0,
        "sat\ntrue\nfalse\nfalse\ntrue\n",
        "",
    ),
    (
        "(check)(eval (= false false))(eval (= false true))(eval (/= false false))(eval (/= false true))",
        0,
        "sat\ntrue\nfalse\nfalse\ntrue\n",
        "",
    ),
    (
        "(check)(eval (if true false true))(eval (if false false true))(eval (ite true true false))(eval (ite false true false))",
        0,
        "sat\nfalse\ntrue\ntrue\nfalse\n",
        "",
    ),
    (
        "(check)(eval (distinct false))(eval (distinct false true))(eval (distinct true true))(eval (distinct true false true))",
        0,
        "sat\ntrue\ntrue\nfalse\nfalse\n",
        "",
    ),
    // What a formula forces.
    (
        "(define p::bool)(assert (not (not p)))(check)(eval p)(assert (not p))(check)",
        0,
        "sat\ntrue\nunsat\n",
        "",
    ),
    // An odd number of arguments is true.
    (
        "(define p::bool)(define q::bool)(define r::bool)(assert (xor p q r))(assert (and p q))(check)(eval r)(eval (xor p q))",
        0,
        "sat\ntrue\nfalse\n",
        "",
    ),
    (
        "(define p::bool)(define q::bool)(define r::bool)(assert (xor p q))(assert (xor q r))(assert (xor r p))(check)",
        0,
        "unsat\n",
        "",
    ),
    (
        "(define p::bool)(define q::bool)(assert (not (=> p q)))(check)(show-model)(assert (=> p q))(check)",
        0,
        "sat\n(= p true)\n(= q false)\nunsat\n",
        "",
    ),
    (
        "(define p::bool)(define q::bool)(assert (<=> p (not q)))(assert q)(check)(eval p)(assert (<=> q p))(check)",
        0,
        "sat\nfalse\nunsat\n",
        "",
    ),
    // The second argument is false, so the condition is, and the third is true.
    (
        "(define p::bool)(define q::bool)(define r::bool)(assert (if p q r))(assert (not q))(check)(eval p)(eval r)",
        0,
        "sat\nfalse\ntrue\n",
        "",
    ),
    (
        "(define p::bool)(define q::bool)(assert (not (ite p q (not q))))(assert p)(check)(eval q)",
        0,
        "sat\nfalse\n",
        "",
    ),
    (
        "(define p::bool)(define q::bool)(assert (/= p q))(assert (not p))(check)(eval q)(assert (/= q true))(check)",
        0,
        "sat\ntrue\nunsat\n",
        "",
    ),
    (
        "(define p::bool)(define q::bool)(assert (distinct p q))(assert q)(check)(show-model)",
        0,
        "sat\n(= p false)\n(= q true)\n",
        "",
    ),
    // Of three truth values two are equal.
    (
        "(define p::bool)(define q::bool)(define r::bool)(assert (distinct p q r))(check)",
        0,
        "unsat\n",
        "",
    ),
    // The two directions differ where p and q do.
    (
        "(define p::bool)(define q::bool)(assert (/= (=> p q) (=> q p)))(assert p)(check)(show-model)",
        0,
        "sat\n(= p true)\n(= q false)\n",
        "",
    ),
    (
        "(define p::bool)(define q::bool)(define r::bool)(assert (xor (if p q r) (or (and p q) (and (not p) r))))(check)",
        0,
        "unsat\n",
        "",
    ),
    // Equal arguments of a parity go away in pairs.
    (
        "(define p::bool)(define q::bool)(define r::bool)(assert (xor p q r q p))(check)(eval r)(assert (not r))(check)",
        0,
        "sat\ntrue\nunsat\n",
        "",
    ),
];

/// What `let` binds, side by side and one inside another, what it hides, and what is wrong with it: a name that is bound twice comes first, then what is bound, then what stands inside.
pub const LETS: [Row; 20] = [
    // Side by side.
    (
        "(define p::bool)(define q::bool)(assert (let ((p q)(q p)) (and p (not q))))(check)(show-model)",
        0,
        "sat\n(= p false)\n(= q true)\n",
        "",
    ),
    // One inside another: both names are q.
    (
        "(define p::bool)(define q::bool)(assert (not p))(assert (let ((p q)) (let ((q p)) (and p q))))(check)(show-model)",
        0,
        "sat\n(= p false)\n(= q true)\n",
        "",
    ),
    // Outside the inner binding the outer one is back.
    (
        "(check)(eval (let ((x true)) (and (let ((x false)) (let ((x true)) x)) x)))(eval (let ((x true)) (xor (let ((x false)) x) x)))",
        0,
        "sat\ntrue\ntrue\n",
        "",
    ),
    // The inner y is bound to the outer x, which is p.
    (
        "(define p::bool)(define q::bool)(assert (and p (not q)))(check)(eval (let ((x p)) (let ((x q)(y x)) y)))",
        0,
        "sat\ntrue\n",
        "",
    ),
    (
        "(define p::bool)(assert (and (let ((p (not p))) (not p)) p))(check)(eval p)",
        0,
        "sat\ntrue\n",
        "",
    ),
    (
        "(define p::bool)(assert (let ((x (let ((x (not p))) x))) x))(check)(show-model)",
        0,
        "sat\n(= p false)\n",
        "",
    ),
    (
        "(define p::bool)(define q::bool)(assert (xor (let ((x p)) x) (let ((x q)) x)))(assert q)(check)(eval p)",
        0,
        "sat\nfalse\n",
        "",
    ),
    // A bound name isn't declared, so it can be later.
    (
        "(define p::bool)(assert (let ((x p)) x))(define x::bool)(assert (not x))(check)(show-model)",
        0,
        "sat\n(= p true)\n(= x false)\n",
        "",
    ),
    // Three are bound in turn; the last one reads the first through the second.
    (
        "(define p::bool)(define q::bool)(assert (let ((a q)) (let ((b (not a))) (let ((c (not b))) (and c (not p))))))(check)(show-model)",
        0,
        "sat\n(= p false)\n(= q true)\n",
        "",
    ),
    // The name on the left may be that of a definition on the right.
    (
        "(define p::bool)(define q::bool (not p))(assert (let ((p q)(q p)) (and p (not q))))(check)(show-model)(eval q)",
        0,
        "sat\n(= p false)\ntrue\n",
        "",
    ),
    // A definition reads what a name stands for, also where another name hides it later.
    (
        "(define p::bool)(define q::bool (not p))(assert p)(check)(eval (let ((p false)) q))(eval (let ((p false)) (or p q)))",
        0,
        "sat\nfalse\nfalse\n",
        "",
    ),
    // The first binding that repeats an earlier one is that of y.
    (
        "(define p::bool)(assert (let ((x p)(y p)(y p)(x p)) x))",
        20,
        "",
        "1:25: refused 4 BoundTwice y",
    ),
    (
        "(assert (let ((x nosuch)(x nosuch)) x))",
        20,
        "",
        "1:9: refused 4 BoundTwice x",
    ),
    (
        "(eval (let ((x nosuch)) (not)))",
        20,
        "",
        "1:16: refused 1 UnknownName nosuch",
    ),
    // Side by side: y can't read x.
    (
        "(define p::bool)(eval (let ((x p)(y x)) y))",
        20,
        "",
        "1:37: refused 1 UnknownName x",
    ),
    // A binding ends with its `let`.
    (
        "(define p::bool)(assert (and (let ((x p)) x) x))",
        20,
        "",
        "1:46: refused 1 UnknownName x",
    ),
    (
        "(eval (let ((x (let ((y true)(y true)) y))) (not)))",
        20,
        "",
        "1:16: refused 4 BoundTwice y",
    ),
    (
        "(eval (let ((a (let ((y true)(y true)) y))(a true)) b))",
        20,
        "",
        "1:7: refused 4 BoundTwice a",
    ),
    // A name in use comes before what stands in the expression.
    (
        "(define p::bool)(define p::bool (let ((x p)(x p)) x))",
        20,
        "",
        "1:17: refused 3 NameInUse p",
    ),
    (
        "(define p::bool)(assert (let ((x p)(x p)) x))",
        20,
        "",
        "1:25: refused 4 BoundTwice x",
    ),
];

/// Checks under assumptions, with their cores and models.
pub const ASSUMPTIONS: [Row; 15] = [
    (
        "(assert false)(check-assuming)(show-unsat-assumptions)",
        0,
        "unsat\n()\n",
        "",
    ),
    (
        "(define p::bool)(check-assuming (not p))(show-model)(check-assuming p)(show-model)",
        0,
        "sat\n(= p false)\nsat\n(= p true)\n",
        "",
    ),
    (
        "(define p::bool)(check-assuming p (not p))(show-unsat-assumptions)(check-assuming (not p) p)(show-unsat-assumptions)",
        0,
        "unsat\n(p (not p))\nunsat\n((not p) p)\n",
        "",
    ),
    // What isn't needed isn't blamed, and the same literal counts once.
    (
        "(define a::bool)(define b::bool)(define c::bool)(assert (not (and a c)))(check-assuming a b c a)(show-unsat-assumptions)",
        0,
        "unsat\n(a c)\n",
        "",
    ),
    (
        "(define p::bool)(assert (not p))(check-assuming p p p)(show-unsat-assumptions)",
        0,
        "unsat\n(p)\n",
        "",
    ),
    // Two names of one term count once, and are written as the first of them.
    (
        "(define p::bool)(define q::bool p)(assert (not p))(check-assuming q p)(show-unsat-assumptions)(check-assuming p q)(show-unsat-assumptions)",
        0,
        "unsat\n(q)\nunsat\n(p)\n",
        "",
    ),
    (
        "(define p::bool)(define n::bool (not p))(assert p)(check-assuming n (not p))(show-unsat-assumptions)(check-assuming (not p) n)(show-unsat-assumptions)",
        0,
        "unsat\n(n)\nunsat\n((not p))\n",
        "",
    ),
    (
        "(define p::bool)(define q::bool)(define g::bool (and p q))(define h::bool (and p q))(assert (not p))(check-assuming h g h)(show-unsat-assumptions)",
        0,
        "unsat\n(h)\n",
        "",
    ),
    // In order of first appearance.
    (
        "(define a::bool)(define b::bool)(define c::bool)(assert (not (and a b c)))(check-assuming c a b)(show-unsat-assumptions)(check-assuming b c b a c)(show-unsat-assumptions)",
        0,
        "unsat\n(c a b)\nunsat\n(b c a)\n",
        "",
    ),
    (
        "(define a::bool)(define b::bool)(define c::bool)(assert (xor a b c))(check-assuming a b (not c))(show-unsat-assumptions)(check-assuming a b c)",
        0,
        "unsat\n(a b (not c))\nsat\n",
        "",
    ),
    (
        "(define a::bool)(define b::bool)(define c::bool)(define d::bool)(assert (or a b c d))(check-assuming (not d) (not b) (not a) (not c))(show-unsat-assumptions)",
        0,
        "unsat\n((not d) (not b) (not a) (not c))\n",
        "",
    ),
    (
        "(define t::bool true)(check-assuming t)(check-assuming (not t) (not t))(show-unsat-assumptions)",
        0,
        "sat\nunsat\n((not t))\n",
        "",
    ),
    (
        "(define p::bool)(define q::bool)(define g::bool (and p q))(assert (and q p))(check-assuming (not g))(show-unsat-assumptions)",
        0,
        "unsat\n((not g))\n",
        "",
    ),
    // However it is spaced, a literal is printed with single spaces.
    (
        "(define p::bool)(check-assuming\n  ( not ; p\n    p )\tp)(show-unsat-assumptions)",
        0,
        "unsat\n((not p) p)\n",
        "",
    ),
    (
        "(define p::bool)(define q::bool)(define s::bool (xor p q))(define e::bool (= p q))(check-assuming e s)(show-unsat-assumptions)(check-assuming s (not q))(show-model)",
        0,
        "unsat\n(e s)\nsat\n(= p true)\n(= q false)\n",
        "",
    ),
];

/// Which cores and models are kept, and what drops them.
pub const KEPT: [Row; 15] = [
    // A check without assumptions keeps no core.
    (
        "(check)(show-unsat-assumptions)(assert false)(check)(show-unsat-assumptions)",
        0,
        "sat\nno core\nunsat\nno core\n",
        "",
    ),
    (
        "(define p::bool)(assert (not p))(check-assuming p)(assert true)(show-unsat-assumptions)",
        0,
        "unsat\nno core\n",
        "",
    ),
    (
        "(define p::bool)(assert (not p))(check-assuming p)(push)(show-unsat-assumptions)",
        0,
        "unsat\nno core\n",
        "",
    ),
    (
        "(define p::bool)(assert (not p))(push)(check-assuming p)(pop)(show-unsat-assumptions)",
        0,
        "unsat\nno core\n",
        "",
    ),
    (
        "(define p::bool)(assert (not p))(check-assuming p)(reset)(show-unsat-assumptions)",
        0,
        "unsat\nno core\n",
        "",
    ),
    (
        "(define p::bool)(assert (not p))(check-assuming p)(check)(show-unsat-assumptions)",
        0,
        "unsat\nsat\nno core\n",
        "",
    ),
    // What neither asserts nor checks leaves it.
    (
        "(define p::bool)(assert (not p))(check-assuming p)(define q::bool p)(define r::bool)(echo \"-\\n\")(eval p)(show-model)(show-unsat-assumptions)(show-unsat-assumptions)",
        0,
        "unsat\n-\nno model\nno model\n(p)\n(p)\n",
        "",
    ),
    // A definition behind the check doesn't change how the core is written.
    (
        "(define p::bool)(define q::bool)(assert (not p))(check-assuming p)(define a::bool p)(show-unsat-assumptions)(check-assuming a p)(show-unsat-assumptions)",
        0,
        "unsat\n(p)\nunsat\n(a)\n",
        "",
    ),
    // Models.
    (
        "(define p::bool)(push)(assert p)(check)(eval p)(pop)(eval p)(show-model)",
        0,
        "sat\ntrue\nno model\nno model\n",
        "",
    ),
    (
        "(define p::bool)(assert p)(check)(check-assuming (not p))(eval p)(show-model)(check)(eval p)",
        0,
        "sat\nunsat\nno model\nno model\nsat\ntrue\n",
        "",
    ),
    // The model is that of the newest check, and makes its assumptions true.
    (
        "(define p::bool)(define q::bool)(assert (xor p q))(check-assuming p)(eval q)(check-assuming q)(eval q)(show-model)",
        0,
        "sat\nfalse\nsat\ntrue\n(= p false)\n(= q true)\n",
        "",
    ),
    // Names that are declared behind the check are false.
    (
        "(define p::bool)(assert p)(check)(define q::bool)(define r::bool)(show-model)(eval (or q r))(eval (= q r))(eval (distinct p q))",
        0,
        "sat\n(= p true)\n(= q false)\n(= r false)\nfalse\ntrue\ntrue\n",
        "",
    ),
    // Formulas go with their level.
    (
        "(define p::bool)(define q::bool)(push)(assert p)(push)(assert q)(check-assuming (not q))(show-unsat-assumptions)(pop)(check-assuming (not q))(show-model)(pop)(check-assuming (not p) (not q))(show-model)",
        0,
        "unsat\n((not q))\nsat\n(= p true)\n(= q false)\nsat\n(= p false)\n(= q false)\n",
        "",
    ),
    // In order of declaration, those with a value left out.
    (
        "(define z::bool)(define k::bool true)(define a::bool)(define m::bool (and a z))(assert (and a (not z) k (not m)))(check)(show-model)",
        0,
        "sat\n(= z false)\n(= a true)\n",
        "",
    ),
    (
        "(define p11::bool)(define p12::bool)(define p21::bool)(define p22::bool)(define p31::bool)(define p32::bool)(assert (or p11 p12))(assert (or p21 p22))(assert (or p31 p32))(assert (or (not p11) (not p21)))(assert (or (not p11) (not p31)))(assert (or (not p21) (not p31)))(assert (or (not p12) (not p22)))(assert (or (not p12) (not p32)))(assert (or (not p22) (not p32)))(check)",
        0,
        "unsat\n",
        "",
    ),
];

/// Each cause at its place. Inside one expression the arguments come from the left before the whole, the innermost first.
pub const REFUSED: [Row; 25] = [
    // Numbers of arguments.
    (
        "(check)(eval (xor))",
        20,
        "sat\n",
        "1:14: refused 6 BadArity 0",
    ),
    ("(assert (=> true))", 20, "", "1:9: refused 6 BadArity 1"),
    (
        "(assert (=> true true true))",
        20,
        "",
        "1:9: refused 6 BadArity 3",
    ),
    (
        "(assert (<=> true true true true))",
        20,
        "",
        "1:9: refused 6 BadArity 4",
    ),
    (
        "(assert (if true true))",
        20,
        "",
        "1:9: refused 6 BadArity 2",
    ),
    ("(assert (= true))", 20, "", "1:9: refused 6 BadArity 1"),
    (
        "(assert (= true true true))",
        20,
        "",
        "1:9: refused 6 BadArity 3",
    ),
    (
        "(assert (/= true false true))",
        20,
        "",
        "1:9: refused 6 BadArity 3",
    ),
    ("(assert (distinct))", 20, "", "1:9: refused 6 BadArity 0"),
    // What comes first.
    (
        "(assert (=> nosuch))",
        20,
        "",
        "1:13: refused 1 UnknownName nosuch",
    ),
    (
        "(assert (not (xor (distinct))))",
        20,
        "",
        "1:19: refused 6 BadArity 0",
    ),
    (
        "(assert (or (=> true) nosuch))",
        20,
        "",
        "1:13: refused 6 BadArity 1",
    ),
    // No truth value is a function.
    (
        "(define p::bool)(assert (p p))",
        20,
        "",
        "1:25: refused 8 WrongType 1 function bool",
    ),
    (
        "(define p::bool)(assert (p nosuch))",
        20,
        "",
        "1:28: refused 1 UnknownName nosuch",
    ),
    (
        "(define p::bool)(assert ((not p) (p p)))",
        20,
        "",
        "1:34: refused 8 WrongType 1 function bool",
    ),
    // Of an update the function comes first, then its arguments, then the value.
    (
        "(define p::bool)(eval (update p (p) p))",
        20,
        "",
        "1:23: refused 8 WrongType 1 function bool",
    ),
    (
        "(define p::bool)(eval (update f (g) h))",
        20,
        "",
        "1:31: refused 1 UnknownName f",
    ),
    (
        "(define p::bool)(eval (update p (p) h))",
        20,
        "",
        "1:37: refused 1 UnknownName h",
    ),
    // Of literals the name is told.
    (
        "(define p::bool)(check-assuming p r (not s))",
        20,
        "",
        "1:35: refused 1 UnknownName r",
    ),
    // Before the formulas are looked at.
    (
        "(assert false)(check-assuming q)",
        20,
        "",
        "1:31: refused 1 UnknownName q",
    ),
    // A name in use comes before what is wrong with its value.
    (
        "(define p::bool)(check)(define p::bool (not))",
        20,
        "sat\n",
        "1:24: refused 3 NameInUse p",
    ),
    // What isn't built comes before an unknown name, a wrong number, a name bound twice and an application.
    (
        "(define p::bool)(check-assuming p)(show-implicant)",
        20,
        "sat\n",
        "1:35: refused 21 NotBuilt",
    ),
    (
        "(assert (and nosuch (not) 0b1))",
        20,
        "",
        "1:1: refused 21 NotBuilt",
    ),
    (
        "(define p::bool)(assert (let ((x p)(x 1)) x))",
        20,
        "",
        "1:17: refused 21 NotBuilt",
    ),
    // Of a literal only a name is negated.
    (
        "(check-assuming (not (not p)))",
        17,
        "",
        "1:22: syntax Unexpected",
    ),
];

/// Checks without a turn. Behind `unknown` neither a model nor a core is kept; the limit holds for each check by itself, and what is forced takes no turn.
pub const UNTURNED: [Row; 8] = [
    (
        "(define p11::bool)(define p12::bool)(define p21::bool)(define p22::bool)(define p31::bool)(define p32::bool)(assert (or p11 p12))(assert (or p21 p22))(assert (or p31 p32))(assert (or (not p11) (not p21)))(assert (or (not p11) (not p31)))(assert (or (not p21) (not p31)))(assert (or (not p12) (not p22)))(assert (or (not p12) (not p32)))(assert (or (not p22) (not p32)))(check)(show-model)(eval true)(show-unsat-assumptions)",
        0,
        "unknown\nno model\nno model\nno core\n",
        "",
    ),
    (
        "(define p11::bool)(define p12::bool)(define p21::bool)(define p22::bool)(define p31::bool)(define p32::bool)(push)(assert (or p11 p12))(assert (or p21 p22))(assert (or p31 p32))(assert (or (not p11) (not p21)))(assert (or (not p11) (not p31)))(assert (or (not p21) (not p31)))(assert (or (not p12) (not p22)))(assert (or (not p12) (not p32)))(assert (or (not p22) (not p32)))(check)(check)(pop)(assert p11)(check)(eval p11)",
        0,
        "unknown\nunknown\nsat\ntrue\n",
        "",
    ),
    // Where one pigeon's hole is assumed the rest is forced.
    (
        "(define p11::bool)(define p12::bool)(define p21::bool)(define p22::bool)(define p31::bool)(define p32::bool)(assert (or p11 p12))(assert (or p21 p22))(assert (or p31 p32))(assert (or (not p11) (not p21)))(assert (or (not p11) (not p31)))(assert (or (not p21) (not p31)))(assert (or (not p12) (not p22)))(assert (or (not p12) (not p32)))(assert (or (not p22) (not p32)))(check-assuming p11)(check-assuming (not p31))",
        0,
        "unsat\nunsat\n",
        "",
    ),
    (
        "(define p::bool)(assert p)(assert (not p))(check)(show-model)",
        0,
        "unsat\nno model\n",
        "",
    ),
    (
        "(define p::bool)(define q::bool)(assert (or p q))(assert (not p))(check)(show-model)",
        0,
        "sat\n(= p false)\n(= q true)\n",
        "",
    ),
    (
        "(define p11::bool)(define p12::bool)(define p21::bool)(define p22::bool)(define p31::bool)(define p32::bool)(assert (or p11 p12))(assert (or p21 p22))(assert (or p31 p32))(assert (or (not p11) (not p21)))(assert (or (not p11) (not p31)))(assert (or (not p21) (not p31)))(assert (or (not p12) (not p22)))(assert (or (not p12) (not p32)))(assert (or (not p22) (not p32)))(check)",
        0,
        "unknown\n",
        "",
    ),
    (
        "(define p::bool)(assert p)(check)(show-model)",
        0,
        "sat\n(= p true)\n",
        "",
    ),
    ("(check)", 0, "sat\n", ""),
];
