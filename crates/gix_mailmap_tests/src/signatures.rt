//! Signatures: how they are resolved, and what they own.
use crate::script::assert_script;

/// A time is in seconds, and so is its offset. One that can't be read becomes the default one.
#[test]
fn only_mapped_texts_are_owned(rt: HostRuntime) {
    assert_script(
        &rt,
        r#"## the answers of resolve, of try_resolve and of resolve_cow, a copy of the last, and whether from_cow makes of the copy
## what resolve answers
# the example of the original
new Joe R. Developer <joe@example.com> <bugs@example.com>; Jane Doe <jane@example.com> Jane <bugs@example.com>
resolve Jane <bugs@example.com> 1711398853 +0800
    Jane Doe <jane@example.com>
    Time { seconds: 1711398853, offset: 28800 }
    Jane Doe <jane@example.com>
    Time { seconds: 1711398853, offset: 28800 }
    owned Jane Doe owned jane@example.com
    Time { seconds: 1711398853, offset: 28800 }
    owned Jane Doe owned jane@example.com
    Time { seconds: 1711398853, offset: 28800 }
    Jane Doe <jane@example.com>
    Time { seconds: 1711398853, offset: 28800 }
# an email that stays as it is is borrowed
new P <x@y>
resolve Bob <x@y> 5 +0000
    P <x@y>
    Time { seconds: 5, offset: 0 }
    P <x@y>
    Time { seconds: 5, offset: 0 }
    owned P borrowed x@y
    Time { seconds: 5, offset: 0 }
    owned P borrowed x@y
    Time { seconds: 5, offset: 0 }
    P <x@y>
    Time { seconds: 5, offset: 0 }
resolve Bob <X@y> 5 +0000
    P <x@y>
    Time { seconds: 5, offset: 0 }
    P <x@y>
    Time { seconds: 5, offset: 0 }
    owned P owned x@y
    Time { seconds: 5, offset: 0 }
    owned P owned x@y
    Time { seconds: 5, offset: 0 }
    P <x@y>
    Time { seconds: 5, offset: 0 }
# a name that stays as it is is borrowed
new <n@y> Jane <x@y>
resolve Bob <X@y> 5 +0000
    Bob <x@y>
    Time { seconds: 5, offset: 0 }
    Bob <x@y>
    Time { seconds: 5, offset: 0 }
    borrowed Bob owned x@y
    Time { seconds: 5, offset: 0 }
    borrowed Bob owned x@y
    Time { seconds: 5, offset: 0 }
    Bob <x@y>
    Time { seconds: 5, offset: 0 }
resolve Jane <x@y> 5 +0000
    Jane <n@y>
    Time { seconds: 5, offset: 0 }
    Jane <n@y>
    Time { seconds: 5, offset: 0 }
    borrowed Jane owned n@y
    Time { seconds: 5, offset: 0 }
    borrowed Jane owned n@y
    Time { seconds: 5, offset: 0 }
    Jane <n@y>
    Time { seconds: 5, offset: 0 }
# nothing is mapped
new <n@y> Jane <x@y>
resolve Bob <x@y> 5 +0000
    Bob <x@y>
    Time { seconds: 5, offset: 0 }
    nothing
    borrowed Bob borrowed x@y
    Time { seconds: 5, offset: 0 }
    borrowed Bob borrowed x@y
    Time { seconds: 5, offset: 0 }
    Bob <x@y>
    Time { seconds: 5, offset: 0 }
# nothing is known
resolve Bob <b@x> 1 +0130
    Bob <b@x>
    Time { seconds: 1, offset: 5400 }
    nothing
    borrowed Bob borrowed b@x
    Time { seconds: 1, offset: 5400 }
    borrowed Bob borrowed b@x
    Time { seconds: 1, offset: 5400 }
    Bob <b@x>
    Time { seconds: 1, offset: 5400 }
# a time that can't be read
resolve Bob <b@x> soon
    Bob <b@x>
    Time { seconds: 0, offset: 0 }
    nothing
    borrowed Bob borrowed b@x
    Time { seconds: 0, offset: 0 }
    borrowed Bob borrowed b@x
    Time { seconds: 0, offset: 0 }
    Bob <b@x>
    Time { seconds: 0, offset: 0 }
resolve Bob <b@x> 1 +130
    Bob <b@x>
    Time { seconds: 0, offset: 0 }
    nothing
    borrowed Bob borrowed b@x
    Time { seconds: 0, offset: 0 }
    borrowed Bob borrowed b@x
    Time { seconds: 0, offset: 0 }
    Bob <b@x>
    Time { seconds: 0, offset: 0 }
resolve Bob <b@x> +1 +0000
    Bob <b@x>
    Time { seconds: 0, offset: 0 }
    nothing
    borrowed Bob borrowed b@x
    Time { seconds: 0, offset: 0 }
    borrowed Bob borrowed b@x
    Time { seconds: 0, offset: 0 }
    Bob <b@x>
    Time { seconds: 0, offset: 0 }
resolve Bob <b@x> 1  +0000
    Bob <b@x>
    Time { seconds: 0, offset: 0 }
    nothing
    borrowed Bob borrowed b@x
    Time { seconds: 0, offset: 0 }
    borrowed Bob borrowed b@x
    Time { seconds: 0, offset: 0 }
    Bob <b@x>
    Time { seconds: 0, offset: 0 }
new P <x@y>
resolve Bob <x@y> 9223372036854775808 +0000
    P <x@y>
    Time { seconds: 0, offset: 0 }
    P <x@y>
    Time { seconds: 0, offset: 0 }
    owned P borrowed x@y
    Time { seconds: 0, offset: 0 }
    owned P borrowed x@y
    Time { seconds: 0, offset: 0 }
    P <x@y>
    Time { seconds: 0, offset: 0 }
## from has a signature that isn't looked up, whether it is equal to the default, and the default
# a signature that isn't looked up borrows its texts, and so does the default, which has none
from Bob <b@x> 1 +0130
    borrowed Bob borrowed b@x
    Time { seconds: 1, offset: 5400 }
    false
    borrowed "" borrowed ""
    Time { seconds: 0, offset: 0 }
from "" <>
    borrowed "" borrowed ""
    Time { seconds: 0, offset: 0 }
    true
    borrowed "" borrowed ""
    Time { seconds: 0, offset: 0 }
from "" <a@x>
    borrowed "" borrowed a@x
    Time { seconds: 0, offset: 0 }
    false
    borrowed "" borrowed ""
    Time { seconds: 0, offset: 0 }
"#,
    );
}
