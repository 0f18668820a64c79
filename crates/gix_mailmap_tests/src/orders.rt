//! Orders: of texts without case, entries, times and signatures.
use crate::script::assert_script;

#[test]
fn texts_entries_times_and_signatures_have_their_order(rt: HostRuntime) {
    assert_script(
        &rt,
        r#"## texts with the letters of ASCII folded, the other way round, by Steps, and how many steps that is
# the tests of the original
cmp_ignore_ascii_case FooBar; foobar
    [Equal, Equal, Equal]
    1
cmp_ignore_ascii_case Masse; Ma\xc3\x9fe
    [Less, Greater, Less]
    1
cmp_ignore_ascii_case FOO\xff; foo\xff
    [Equal, Equal, Equal]
    1
cmp_ignore_ascii_case A; B\xff
    [Less, Greater, Less]
    1
cmp_ignore_ascii_case a; B\xff
    [Less, Greater, Less]
    1
# a proper prefix is less
cmp_ignore_ascii_case ;\x20
    [Equal, Equal, Equal]
    1
cmp_ignore_ascii_case ; \x00
    [Less, Greater, Less]
    1
cmp_ignore_ascii_case foo; FOO1
    [Less, Greater, Less]
    1
# letters count as lower case, so _ comes before all of them
cmp_ignore_ascii_case _@x; a@x
    [Less, Greater, Less]
    1
cmp_ignore_ascii_case _@x; Z@x
    [Less, Greater, Less]
    1
cmp_ignore_ascii_case a@x; Z@x
    [Less, Greater, Less]
    1
# other letters aren't folded
cmp_ignore_ascii_case \xc3\xa4; \xc3\x84
    [Greater, Less, Greater]
    1
## times, read from their text: seconds, and the offset in seconds
# the bounds of the seconds and of the offset, and zeros and a sign in front
time N <a@x> 1711398853 +0800
    [Some(Time { seconds: 1711398853, offset: 28800 }), Some(Time { seconds: 1711398853, offset: 28800 })]
time N <a@x> -9223372036854775808 -0000
    [Some(Time { seconds: -9223372036854775808, offset: 0 }), Some(Time { seconds: -9223372036854775808, offset: 0 })]
time N <a@x> 9223372036854775807 +0000
    [Some(Time { seconds: 9223372036854775807, offset: 0 }), Some(Time { seconds: 9223372036854775807, offset: 0 })]
time N <a@x> 0000000000000000000000001 +0130
    [Some(Time { seconds: 1, offset: 5400 }), Some(Time { seconds: 1, offset: 5400 })]
time N <a@x> -0 -0730
    [Some(Time { seconds: 0, offset: -27000 }), Some(Time { seconds: 0, offset: -27000 })]
time N <a@x> 1 +9999
    [Some(Time { seconds: 1, offset: 362340 }), Some(Time { seconds: 1, offset: 362340 })]
time N <a@x> 1 -9999
    [Some(Time { seconds: 1, offset: -362340 }), Some(Time { seconds: 1, offset: -362340 })]
# other texts can't be read
time N <a@x> 9223372036854775808 +0000
    [None, None]
time N <a@x> -9223372036854775809 +0000
    [None, None]
time N <a@x> 1 +130
    [None, None]
time N <a@x> 1 +00000
    [None, None]
time N <a@x> 1 0000
    [None, None]
time N <a@x> +1 +0000
    [None, None]
time N <a@x> - +0000
    [None, None]
time N <a@x> 1  +0000
    [None, None]
time N <a@x>  1 +0000
    [None, None]
time N <a@x> 1 +0000\x20
    [None, None]
time N <a@x> 1
    [None, None]
time N <a@x>
    [None, None]
## entries by new name, new email, old name and old email, in this order; a missing field comes first, a proper prefix
## before what it begins, and upper case before lower case
# a missing new name comes first, and the default entry before all others
cmp_entries <e> <a>; A <a>
    Less
cmp_entries <>; <e> <a>
    Less
cmp_entries <>; A <a>
    Less
# each is less than the next one
cmp_entries <>; <e> <a>
    Less
cmp_entries <e> <a>; <>
    Greater
cmp_entries <e> <a>; <e> <b>
    Less
cmp_entries <e> <b>; <e> <a>
    Greater
cmp_entries <e> <b>; <e> "" <a>
    Less
cmp_entries <e> "" <a>; <e> <b>
    Greater
cmp_entries <e> "" <a>; <e> N <a>
    Less
cmp_entries <e> N <a>; <e> "" <a>
    Greater
cmp_entries <e> N <a>; <f> <a>
    Less
cmp_entries <f> <a>; <e> N <a>
    Greater
cmp_entries <f> <a>; A <a>
    Less
cmp_entries A <a>; <f> <a>
    Greater
cmp_entries A <a>; A <aa>
    Less
cmp_entries A <aa>; A <a>
    Greater
cmp_entries A <aa>; A <> <a>
    Less
cmp_entries A <> <a>; A <aa>
    Greater
cmp_entries A <> <a>; A <> n <a>
    Less
cmp_entries A <> n <a>; A <> <a>
    Greater
cmp_entries A <> n <a>; A <e> <>
    Less
cmp_entries A <e> <>; A <> n <a>
    Greater
cmp_entries A <e> <>; a <>
    Less
cmp_entries a <>; A <e> <>
    Greater
# and equal to itself
cmp_entries <>; <>
    Equal
cmp_entries <e> <a>; <e> <a>
    Equal
cmp_entries <e> <b>; <e> <b>
    Equal
cmp_entries <e> "" <a>; <e> "" <a>
    Equal
cmp_entries <e> N <a>; <e> N <a>
    Equal
cmp_entries <f> <a>; <f> <a>
    Equal
cmp_entries A <a>; A <a>
    Equal
cmp_entries A <aa>; A <aa>
    Equal
cmp_entries A <> <a>; A <> <a>
    Equal
cmp_entries A <> n <a>; A <> n <a>
    Equal
cmp_entries A <e> <>; A <e> <>
    Equal
cmp_entries a <>; a <>
    Equal
## times by their seconds, and then by the offset, and below whether signatures with these times are equal; signatures by name, email and time: the first is resolved, so it owns
## the texts that are mapped, and the other borrows its texts
# each time is less than the next one
cmp_times N <a@x> -1 +0001; N <a@x> 0 +0000
    Less
    false
cmp_times N <a@x> 0 +0000; N <a@x> -1 +0001
    Greater
    false
cmp_times N <a@x> 0 +0000; N <a@x> 1 -0001
    Less
    false
cmp_times N <a@x> 1 -0001; N <a@x> 0 +0000
    Greater
    false
cmp_times N <a@x> 1 -0001; N <a@x> 1 +0000
    Less
    false
cmp_times N <a@x> 1 +0000; N <a@x> 1 -0001
    Greater
    false
cmp_times N <a@x> 1 +0000; N <a@x> 1 +0001
    Less
    false
cmp_times N <a@x> 1 +0001; N <a@x> 1 +0000
    Greater
    false
cmp_times N <a@x> 1 +0001; N <a@x> 2 -0001
    Less
    false
cmp_times N <a@x> 2 -0001; N <a@x> 1 +0001
    Greater
    false
# and equal to itself
cmp_times N <a@x> -1 +0001; N <a@x> -1 +0001
    Equal
    true
cmp_times N <a@x> 0 +0000; N <a@x> 0 +0000
    Equal
    true
cmp_times N <a@x> 1 -0001; N <a@x> 1 -0001
    Equal
    true
cmp_times N <a@x> 1 +0000; N <a@x> 1 +0000
    Equal
    true
cmp_times N <a@x> 1 +0001; N <a@x> 1 +0001
    Equal
    true
cmp_times N <a@x> 2 -0001; N <a@x> 2 -0001
    Equal
    true
# signatures as commits have them are compared by their texts, so two spellings of a time differ
cmp_times N <a@x> 1 +0000; N <a@x> 01 +0000
    Equal
    false
cmp_times N <a@x> 1 +0000; n <a@x> 1 +0000
    Equal
    false
cmp_times N <a@x> 1 +0000; N <A@x> 1 +0000
    Equal
    false
# each signature is less than the next one
cmp_signatures "" <>; P <a@y> 7 +0000
    Less
cmp_signatures P <a@y> 7 +0000; "" <>
    Greater
cmp_signatures P <a@y> 7 +0000; P <x@y> 5 -0001
    Less
cmp_signatures P <x@y> 5 -0001; P <a@y> 7 +0000
    Greater
cmp_signatures P <x@y> 5 -0001; P <x@y> 5 +0000
    Less
cmp_signatures P <x@y> 5 +0000; P <x@y> 5 -0001
    Greater
cmp_signatures P <x@y> 5 +0000; P <x@y> 6 +0000
    Less
cmp_signatures P <x@y> 6 +0000; P <x@y> 5 +0000
    Greater
cmp_signatures P <x@y> 6 +0000; p <>
    Less
cmp_signatures p <>; P <x@y> 6 +0000
    Greater
# and equal to itself
cmp_signatures "" <>; "" <>
    Equal
cmp_signatures p <>; p <>
    Equal
# a name that is owned is compared by its bytes
new P <x@y>
cmp_signatures Bob <x@y> 5 +0000; P <x@y> 5 +0000
    Equal
cmp_signatures Bob <x@y> 5 +0000; P <x@y> 5 -0001
    Greater
cmp_signatures Bob <x@y> 5 +0000; P <x@y> 6 +0000
    Less
cmp_signatures Bob <x@y> 5 +0000; P <a@y> 7 +0000
    Greater
# and so are both texts
new P <x@y> <b@y>
cmp_signatures Bob <b@y> 5 +0000; P <x@y> 5 +0000
    Equal
cmp_signatures Bob <b@y> 5 +0000; p <>
    Less
"#,
    );
}
