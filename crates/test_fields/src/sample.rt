// Three sample words. Lines of two have choices: `net,w,3` or `net,x,3,y,1`, and `at,n,1,x,3,y,4` with or without `,t,1`; those of the third have
// strings: `leaf,s,LRB,k,o,v,6`.
ghost use Rattle.std.specs.Prelude.{◌≡◌};
ghost use Rattle.text_line.specs.Held.{spelled};
ghost use Rattle.text_line.specs.Layout.{layout_for};
ghost use Rattle.test_fields.specs.Forms.{net_name, at_name, leaf_name, net_form, at_form, leaf_form};

use text_grammar::WORDS;
use text_line::{Layout, Spelling};
use text_walk::Tests;

// How many words there are.
pub(crate) const COUNT: usize = 3;

// The spelling of `net`, of `at`, and of `leaf`.
fn net_word() -> Spelling
    ensures { result ≡ spelled net_name }
{
    Spelling {
        bytes: [b'n', b'e', b't', 0, 0],
        size: 3,
    }
}

fn at_word() -> Spelling
    ensures { result ≡ spelled at_name }
{
    Spelling {
        bytes: [b'a', b't', 0, 0, 0],
        size: 2,
    }
}

fn leaf_word() -> Spelling
    ensures { result ≡ spelled leaf_name }
{
    Spelling {
        bytes: [b'l', b'e', b'a', b'f', 0],
        size: 4,
    }
}

// The fields of `net`.
fn net_fields() -> Layout
    ensures { result ≡ layout_for net_form }
{
    let w = text_line::or_else(text_line::short_rule(b'w', 0, 1, 1000), 2);
    let x = text_line::short_rule(b'x', 0, 1, 1000);
    let y = text_line::short_rule(b'y', 0, 1, 1000);
    let none = text_line::no_rule();
    Layout {
        rules: [w, none, x, y],
    }
}

// The fields of `at`; t is held 1 higher.
fn at_fields() -> Layout
    ensures { result ≡ layout_for at_form }
{
    let n = text_line::short_rule(b'n', 0, 1, 8);
    let x = text_line::short_rule(b'x', 0, 0, 1024);
    let y = text_line::short_rule(b'y', 0, 0, 1024);
    let t = text_line::or_else(text_line::short_rule(b't', 1, 0, 2), 2);
    Layout {
        rules: [n, x, y, t],
    }
}

// The fields of `leaf`: s has up to 92 of the letters L, R, B, A, and k is one of n, f, o.
fn leaf_fields() -> Layout
    ensures { result ≡ layout_for leaf_form }
{
    let s = text_line::short_rule(b's', 0, 0, 92);
    let letters = text_line::of_letters(s, [b'L', b'R', b'B', b'A'], 4);
    let k = text_line::short_rule(b'k', 0, 1, 1);
    let letter = text_line::of_letters(k, [b'n', b'f', b'o', 0], 3);
    let v = text_line::short_rule(b'v', 0, 0, 589824000);
    let none = text_line::no_rule();
    Layout {
        rules: [letters, letter, v, none],
    }
}

// The tables of the walk.
pub(crate) fn spellings() -> [Spelling; WORDS] {
    let net = net_word();
    let at = at_word();
    let leaf = leaf_word();
    [net, at, leaf, leaf, leaf, leaf, leaf, leaf]
}

pub(crate) fn tests() -> Tests {
    Tests {
        placed: [true; WORDS],
        room: [true; WORDS],
        pinned: [true; WORDS],
    }
}

// The fields of word i.
pub(crate) fn layout_at(i: usize) -> Layout {
    if i == 0 {
        return net_fields();
    }
    if i == 1 {
        return at_fields();
    }
    leaf_fields()
}
