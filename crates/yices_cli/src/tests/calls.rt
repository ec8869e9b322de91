//! Scripts of calls with their replies, worked out by hand from what each call does.

use crate::tests::Row;

/// Scripts of calls, and lines that are no calls.
pub const CALLS: [Row; 84] = [
    // Scripts without a call: their lines count.
    ("", 0, "", ""),
    ("\n \t; note\n;\n", 0, "", ""),
    ("bool_type", 0, "#1 type bool\n", ""),
    (
        "\n;\n bool_type\t; second\n\nnum_terms;\n",
        0,
        "#3 type bool\n#5 2\n",
        "",
    ),
    ("; é\u{1}\nnum_types\n", 0, "#2 130\n", ""),
    // Collections: what is counted stays, and a freed handle is refused for good.
    (
        "bool_type\nnew_uninterpreted_term #1\nnew_uninterpreted_term #1\nand #2 #3\nincref_term #2\ngarbage_collect false\ntype_of_term #4\nnew_uninterpreted_term #1\nincref_term #4\nnum_terms\n",
        0,
        "#1 type bool\n#2 term\n#3 term\n#4 term\n#5 ok\n#6 ok\n#7 refused DeadTerm 1\n#8 term\n#9 refused DeadTerm 1\n#10 4\n",
        "",
    ),
    (
        "bool_type\nnew_uninterpreted_term #1\nnot #2\nincref_term #3\ngarbage_collect false\ntype_of_term #2\ndecref_term #3\ndecref_term #3\n",
        0,
        "#1 type bool\n#2 term\n#3 term\n#4 ok\n#5 ok\n#6 type bool\n#7 ok\n#8 refused CountZero\n",
        "",
    ),
    (
        "bool_type\nnew_uninterpreted_term #1\nset_term_name \"p\" #2\ngarbage_collect false\nget_term_by_name \"p\"\ntype_of_term #2\n",
        0,
        "#1 type bool\n#2 term\n#3 ok\n#4 ok\n#5 none\n#6 refused DeadTerm 1\n",
        "",
    ),
    (
        "bool_type\nnew_uninterpreted_term #1\nset_term_name \"p\" #2\ngarbage_collect true\nget_term_by_name \"p\"\ntype_of_term #2\n",
        0,
        "#1 type bool\n#2 term\n#3 ok\n#4 ok\n#5 term\n#6 type bool\n",
        "",
    ),
    (
        "bool_type\nnew_uninterpreted_term #1\ngarbage_collect false #1 #2\npp_term #2\ngarbage_collect false\npp_term #2\n",
        0,
        "#1 type bool\n#2 term\n#3 ok\n#4 c!0\n#5 ok\n#6 refused DeadTerm 1\n",
        "",
    ),
    (
        "bool_type\nnew_uninterpreted_term #1\nnew_context\nassert_formula #3 #2\ngarbage_collect false\npp_term #2\nreset_context #3\ngarbage_collect false\npp_term #2\n",
        0,
        "#1 type bool\n#2 term\n#3 context\n#4 ok\n#5 ok\n#6 c!0\n#7 ok\n#8 ok\n#9 refused DeadTerm 1\n",
        "",
    ),
    // Each constructor, by the text of what it makes.
    (
        "true\nfalse\npp_term #1\npp_term #2",
        0,
        "#1 term\n#2 term\n#3 true\n#4 false\n",
        "",
    ),
    (
        "bool_type\nnew_uninterpreted_term #1\nnew_variable #1\nnot #2\nnot #4\npp_term #3\npp_term #4\npp_term #5\n",
        0,
        "#1 type bool\n#2 term\n#3 term\n#4 term\n#5 term\n#6 v!0\n#7 (not c!0)\n#8 c!0\n",
        "",
    ),
    (
        "bool_type\nnew_uninterpreted_term #1\nnew_uninterpreted_term #1\nand #3 #2\npp_term #4\nor #2 #3 #2\npp_term #6\n",
        0,
        "#1 type bool\n#2 term\n#3 term\n#4 term\n#5 (and c!0 c!1)\n#6 term\n#7 (or c!0 c!1)\n",
        "",
    ),
    (
        "and\nor\nxor\npp_term #1\npp_term #2\npp_term #3\n",
        0,
        "#1 term\n#2 term\n#3 term\n#4 true\n#5 false\n#6 false\n",
        "",
    ),
    (
        "bool_type\nnew_uninterpreted_term #1\nnew_uninterpreted_term #1\niff #2 #3\npp_term #4\neq #3 #2\npp_term #6\n",
        0,
        "#1 type bool\n#2 term\n#3 term\n#4 term\n#5 (= c!0 c!1)\n#6 term\n#7 (= c!0 c!1)\n",
        "",
    ),
    (
        "bool_type\nnew_uninterpreted_term #1\nnew_uninterpreted_term #1\nxor #2 #3\npp_term #4\nneq #2 #3\npp_term #6\ndistinct #2 #3\npp_term #8\n",
        0,
        "#1 type bool\n#2 term\n#3 term\n#4 term\n#5 (not (= c!0 c!1))\n#6 term\n#7 (not (= c!0 c!1))\n#8 term\n#9 (not (= c!0 c!1))\n",
        "",
    ),
    (
        "bool_type\nnew_uninterpreted_term #1\nnew_uninterpreted_term #1\nimplies #2 #3\npp_term #4\n",
        0,
        "#1 type bool\n#2 term\n#3 term\n#4 term\n#5 (or (not c!0) c!1)\n",
        "",
    ),
    (
        "bool_type\nnew_uninterpreted_term #1\nnew_uninterpreted_term #1\nnew_uninterpreted_term #1\nite #2 #3 #4\npp_term #5\ndistinct #2 #3 #4\npp_term #7\n",
        0,
        "#1 type bool\n#2 term\n#3 term\n#4 term\n#5 term\n#6 (ite c!0 c!1 c!2)\n#7 term\n#8 false\n",
        "",
    ),
    ("distinct\n", 0, "#1 refused BadArity 0\n", ""),
    // Names, counts, contexts.
    (
        "bool_type\nnew_uninterpreted_term #1\nset_term_name \"p q\" #2\npp_term #2\nget_term_name #2\nremove_term_name \"p q\"\nremove_term_name \"p q\"\nget_term_name #2\nget_term_by_name \"p q\"\n",
        0,
        "#1 type bool\n#2 term\n#3 ok\n#4 p q\n#5 p q\n#6 true\n#7 false\n#8 none\n#9 none\n",
        "",
    ),
    (
        "bool_type\nget_type_name #1\nset_type_name \";b\" #1\nget_type_name #1\nget_type_by_name \";b\"\nremove_type_name \";b\"\nget_type_by_name \";b\"\nremove_type_name \";b\"\n",
        0,
        "#1 type bool\n#2 none\n#3 ok\n#4 ;b\n#5 type bool\n#6 true\n#7 none\n#8 false\n",
        "",
    ),
    (
        "true\ndecref_term #1\nincref_term #1\ndecref_term #1\n",
        0,
        "#1 term\n#2 refused CountZero\n#3 ok\n#4 ok\n",
        "",
    ),
    (
        "bool_type\ndecref_type #1\nincref_type #1\ndecref_type #1\n",
        0,
        "#1 type bool\n#2 refused CountZero\n#3 ok\n#4 ok\n",
        "",
    ),
    (
        "new_context\npush #1\npop #1\npop #1\ncontext_status #1\nfree_context #1\nfree_context #1\npush #1\nnew_context\n",
        0,
        "#1 context\n#2 ok\n#3 ok\n#4 refused BottomLevel\n#5 idle\n#6 ok\n#7 refused DeadContext 1\n#8 refused DeadContext 1\n#9 context\n",
        "",
    ),
    (
        "bool_type\nnew_variable #1\nnew_context\nassert_formula #3 #2\n",
        0,
        "#1 type bool\n#2 term\n#3 context\n#4 refused HasVariable v!0\n",
        "",
    ),
    (
        "bool_type\nnew_uninterpreted_term #1\ngarbage_collect false\nnew_context\nassert_formula #4 #2\nfree_context #4\nassert_formula #4 #2\n",
        0,
        "#1 type bool\n#2 term\n#3 ok\n#4 context\n#5 refused DeadTerm 2\n#6 ok\n#7 refused DeadContext 1\n",
        "",
    ),
    // References without a result, and of the wrong kind.
    ("free_context #1\n", 0, "#1 refused NoResult 1\n", ""),
    (
        "bool_type\nnot #1\n",
        0,
        "#1 type bool\n#2 refused WrongKind 1\n",
        "",
    ),
    (
        "new_context\nfree_context #1\nfree_context #1\n",
        0,
        "#1 context\n#2 ok\n#3 refused DeadContext 1\n",
        "",
    ),
    (
        "true\nnot #0\nnot #1.1\nnot #1.0\nnot #4\nnot #18446744073709551617\n",
        0,
        "#1 term\n#2 refused NoResult 1\n#3 refused NoResult 1\n#4 refused NoResult 1\n#5 refused NoResult 1\n#6 refused NoResult 1\n",
        "",
    ),
    (
        "true\n\nnot #2\nnot #3\nnum_terms\nnot #5\nnot #01\n",
        0,
        "#1 term\n#3 refused NoResult 1\n#4 refused NoResult 1\n#5 2\n#6 refused NoResult 1\n#7 term\n",
        "",
    ),
    (
        "bool_type\nand #1 #3\nand #1 #1\ntrue\nand #4 #1\n",
        0,
        "#1 type bool\n#2 refused NoResult 2\n#3 refused WrongKind 1\n#4 term\n#5 refused WrongKind 2\n",
        "",
    ),
    (
        "garbage_collect true #1\nnew_context\ngarbage_collect false #2\ntrue\nassert_formula #4 #2\nassert_formula #2 #3\n",
        0,
        "#1 refused NoResult 2\n#2 context\n#3 refused WrongKind 2\n#4 term\n#5 refused WrongKind 1\n#6 refused NoResult 2\n",
        "",
    ),
    (
        "bool_type\nset_term_name \"a\" #1\ntrue\nset_type_name \"a\" #3\nset_type_name \"a\" #2\n",
        0,
        "#1 type bool\n#2 refused WrongKind 2\n#3 term\n#4 refused WrongKind 2\n#5 refused NoResult 2\n",
        "",
    ),
    // What no call begins with.
    ("boolean\n", 17, "", "1:1: syntax Unexpected"),
    (
        "\nnum_terms\n num_term\n",
        17,
        "#2 2\n",
        "3:2: syntax Unexpected",
    ),
    ("#1\n", 17, "", "1:1: syntax Unexpected"),
    ("\"a\"\n", 17, "", "1:1: syntax Unexpected"),
    ("(not #1)\n", 17, "", "1:1: syntax Unexpected"),
    ("num_terms()\n", 17, "", "1:10: syntax Unexpected"),
    ("NUM_TERMS\n", 17, "", "1:1: syntax Unexpected"),
    // Arguments of another form, and one too many.
    ("bool_type #1\n", 17, "", "1:11: syntax Unexpected"),
    (
        "true\nnot #1 #1\n",
        17,
        "#1 term\n",
        "2:8: syntax Unexpected",
    ),
    ("not 1\n", 17, "", "1:5: syntax Unexpected"),
    ("not #\n", 17, "", "1:5: syntax Unexpected"),
    ("not #a\n", 17, "", "1:5: syntax Unexpected"),
    ("not #1x\n", 17, "", "1:5: syntax Unexpected"),
    ("not #1.\n", 17, "", "1:5: syntax Unexpected"),
    ("not #.1\n", 17, "", "1:5: syntax Unexpected"),
    ("not #1.2.3\n", 17, "", "1:5: syntax Unexpected"),
    ("not true\n", 17, "", "1:5: syntax Unexpected"),
    ("not \"a\"\n", 17, "", "1:5: syntax Unexpected"),
    ("not \"a", 17, "", "1:5: syntax Unexpected"),
    ("garbage_collect yes\n", 17, "", "1:17: syntax Unexpected"),
    ("garbage_collect #1\n", 17, "", "1:17: syntax Unexpected"),
    (
        "garbage_collect true false\n",
        17,
        "",
        "1:22: syntax Unexpected",
    ),
    ("get_term_by_name a\n", 17, "", "1:18: syntax Unexpected"),
    ("get_term_by_name \"\"\n", 17, "", "1:18: syntax Unexpected"),
    ("not #1(\n", 17, "", "1:7: syntax Unexpected"),
    // A separator is missing.
    ("get_term_by_name\"a\"\n", 17, "", "1:17: syntax Unexpected"),
    (
        "get_term_by_name \"a\"x\n",
        17,
        "",
        "1:21: syntax Unexpected",
    ),
    ("set_term_name \"a\"#1\n", 17, "", "1:18: syntax Unexpected"),
    // The line ends before its call is whole.
    ("true\nnot\n", 17, "#1 term\n", "2:4: syntax Unexpected"),
    ("not", 17, "", "1:4: syntax EndOfInput"),
    ("garbage_collect \n", 17, "", "1:17: syntax Unexpected"),
    ("not ;#1\n", 17, "", "1:8: syntax Unexpected"),
    ("not ; #1", 17, "", "1:9: syntax EndOfInput"),
    ("get_term_by_name \"a\n", 17, "", "1:20: syntax Unexpected"),
    ("get_term_by_name \"a", 17, "", "1:20: syntax EndOfInput"),
    ("set_term_name \"a\"", 17, "", "1:18: syntax EndOfInput"),
    // Bytes that nothing can hold there.
    (
        "get_term_by_name \"a\\b\"\n",
        17,
        "",
        "1:20: syntax BadByte",
    ),
    (
        "get_term_by_name \"a\u{1}\"\n",
        17,
        "",
        "1:20: syntax BadByte",
    ),
    ("get_term_by_name \"é\"\n", 17, "", "1:19: syntax BadByte"),
    ("bool_type\u{c}\n", 17, "", "1:10: syntax BadByte"),
    ("bool_typ\u{c}\n", 17, "", "1:1: syntax Unexpected"),
    ("bool_type\r\n", 17, "", "1:10: syntax BadByte"),
    (
        "num_terms\nnum_terms é\n",
        17,
        "#1 2\n",
        "2:11: syntax BadByte",
    ),
    ("not #1 #2 \u{1}\n", 17, "", "1:8: syntax Unexpected"),
    // Calls that aren't built.
    ("real_type\n", 20, "", "1:1: refused 21 NotBuilt"),
    (
        "num_terms\n  get_model #1",
        20,
        "#1 2\n",
        "2:3: refused 21 NotBuilt",
    ),
    ("bv_type 8 8 8(\n", 20, "", "1:1: refused 21 NotBuilt"),
    ("get_value\u{1}\n", 20, "", "1:1: refused 21 NotBuilt"),
    ("function_type", 20, "", "1:1: refused 21 NotBuilt"),
];

/// Checks: a limit of turns, a core, a status; whatever was popped or collected.
pub const CHECKS: [Row; 3] = [
    (
        "bool_type\nnew_uninterpreted_term #1\nnew_uninterpreted_term #1\nnew_uninterpreted_term #1\nnew_uninterpreted_term #1\nnew_uninterpreted_term #1\nnew_uninterpreted_term #1\nor #2 #3\nor #4 #5\nor #6 #7\nnot #2\nnot #3\nnot #4\nnot #5\nnot #6\nnot #7\nor #11 #13\nor #11 #15\nor #13 #15\nor #12 #14\nor #12 #16\nor #14 #16\nnew_context\nassert_formula #23 #8\nassert_formula #23 #9\nassert_formula #23 #10\nassert_formula #23 #17\nassert_formula #23 #18\nassert_formula #23 #19\nassert_formula #23 #20\nassert_formula #23 #21\nassert_formula #23 #22\ncheck_context #23 0\ncontext_status #23\ncheck_context #23 whole\nget_unsat_core #23\n",
        0,
        "#1 type bool\n#2 term\n#3 term\n#4 term\n#5 term\n#6 term\n#7 term\n#8 term\n#9 term\n#10 term\n#11 term\n#12 term\n#13 term\n#14 term\n#15 term\n#16 term\n#17 term\n#18 term\n#19 term\n#20 term\n#21 term\n#22 term\n#23 context\n#24 ok\n#25 ok\n#26 ok\n#27 ok\n#28 ok\n#29 ok\n#30 ok\n#31 ok\n#32 ok\n#33 unknown\n#34 unknown\n#35 unsat\n#36 refused NoCore\n",
        "",
    ),
    (
        "bool_type\nnew_uninterpreted_term #1\nnew_uninterpreted_term #1\nnew_uninterpreted_term #1\nand #2 #4\nnot #5\nnew_context\nassert_formula #7 #6\ncheck_context_with_assumptions #7 whole #2 #3 #4 #2\nget_unsat_core #7\npp_term #10.1\npp_term #10.2\npp_term #10.3\nnot #10\n",
        0,
        "#1 type bool\n#2 term\n#3 term\n#4 term\n#5 term\n#6 term\n#7 context\n#8 ok\n#9 unsat\n#10 list 2\n#11 c!0\n#12 c!2\n#13 refused NoResult 1\n#14 refused NoResult 1\n",
        "",
    ),
    (
        "bool_type\nnew_uninterpreted_term #1\nnot #2\nnew_context\nassert_formula #4 #2\ncheck_context #4 whole\npush #4\nassert_formula #4 #3\ncheck_context #4 18446744073709551615\npop #4\ncontext_status #4\ncheck_context_with_assumptions #4 00 #3\nget_unsat_core #4\ngarbage_collect false\npp_term #13.1\ncheck_context_with_assumptions #4 whole #3 #1\ncheck_context #4\n",
        17,
        "#1 type bool\n#2 term\n#3 term\n#4 context\n#5 ok\n#6 sat\n#7 ok\n#8 ok\n#9 unsat\n#10 ok\n#11 idle\n#12 unsat\n#13 list 1\n#14 ok\n#15 (not c!0)\n#16 refused WrongKind 4\n",
        "17:17: syntax Unexpected",
    ),
];
