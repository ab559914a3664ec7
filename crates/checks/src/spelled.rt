// Whether a number is that of so many letters that a template allows: the motifs and prefixes of its kind of search.
ghost use Rattle.std.specs.Prelude.{◌≡◌, ◌^◌, ltb};
ghost use Rattle.rules.specs.Limits.{letter_digits};
ghost use Rattle.rules.specs.Motif.{spell};
ghost use Rattle.rules.specs.Profile.{within, profile_by, profile_of};
ghost use Rattle.rules.specs.Support.{allowed_in, valid};

use rules::{Component, Letter, Profile, Template};

// A number that so many letters can spell: it lies below the base to the power of them. That power is never formed; without so many
// letters nothing may be left of the number.
fn spelled_by(profile: Profile, number: u64, letters: u32) -> bool
    ensures { result ≡ ltb number ((profile_by profile).base ^ letters) }
{
    profile.prefix(number, letters) == 0
}

// Whether the last n letters of a number may be a component's, in a mixed search: each is one of the fourteen, and no more of them than the
// allowance stand for several bases.
fn mixed_allows(c: Component, number: u64, n: u32) -> bool
    ensures { result ≡ within (λ c. c.allowance) c (spell letter_digits n number) }
{
    let mut rest = number;
    let mut all = true;
    for _ in 0..n {
        all = all & (rest % Letter::DIGITS < Letter::SYMBOLS);
        rest = rest / Letter::DIGITS;
    }
    all & (Letter::several(number, n) <= c.allowance as u32)
}

// The same by the kind of search: an exact one allows every letter.
fn component_allows(profile: Profile, c: Component, number: u64, n: u32) -> bool
    ensures { result ≡ (profile_by profile).allows c (spell (profile_by profile).base n number) }
{
    match profile {
        Profile::Exact => true,
        Profile::Mixed => mixed_allows(c, number, n),
    }
}

// Whether so many letters of a number are allowed: dealt out to the components in turn, the last one cut short, they may be theirs.
fn allowed(t: Template, letters: u32, number: u64) -> bool
    ensures { result ≡ allowed_in (profile_of t) t letters number }
{
    let slots = t.components();
    let profile = t.profile;
    let mut left = letters;
    let mut all = true;
    for c in &slots[..t.held() as usize] {
        // as many as it has, or all that are left if there are fewer
        let n = (c.length as u32).min(left);
        left -= n;
        let word = profile.prefix(number, left);
        all = all & component_allows(profile, *c, word, n);
    }
    all
}

// Whether a number is that of so many letters which the template allows.
pub fn valid(t: Template, letters: u32, number: u64) -> bool
    ensures { result ≡ valid t letters number }
{
    let profile = t.profile;
    spelled_by(profile, number, letters) & allowed(t, letters, number)
}
