//! Texts as keys of a map.
ghost use Rattle.std.specs.Prelude.{◌≡◌, ◌<◌, ◌≤◌, All, Some, length, nat_eq, take};
ghost use Rattle.std.specs.Cmp.{on_equiv, on_per, on_po, on_total, partial_equiv_from_equiv};
ghost use Rattle.std.specs.Cmp.Lexicographic.{nat_list_cmp_total, nat_list_eq_equiv, pointwise, slice_cmp};
ghost use Rattle.std.specs.Cmp.Lexicographic.{texts_po, texts_ties};
ghost use Rattle.std.specs.Ordering.{nat_cmp};
ghost use Rattle.std.proofs.Common.{rules};
ghost use Rattle.xet_base.specs.Words.{number_of};
ghost use Rattle.xet_document.specs.steps.Leads.{IsLead};

use std::cmp::Ordering;

/// A text behind the number that its first eight bytes write. Keys are in the order of their texts, and that number
/// decides wherever it differs: most comparisons do not reach into the text.
#[derive(Clone, Copy)]
pub(crate) struct TextKey<'a> {
    lead: u64,
    text: &'a str,
    ghost led: { IsLead lead text.now },
}

impl<'a> PartialEq for TextKey<'a> {
    ghost eq = { λ a b. pointwise nat_eq a.text.now b.text.now };

    ghost laws = { on_per (λ k. k.text.now) (partial_equiv_from_equiv nat_list_eq_equiv) };

    fn eq(&self, other: &TextKey<'a>) -> bool {
        self.text == other.text
    }
}

impl<'a> Eq for TextKey<'a> {
    ghost laws = { on_equiv (λ k. k.text.now) nat_list_eq_equiv };
}

impl<'a> PartialOrd for TextKey<'a> {
    ghost partial_cmp = { λ a b. Some (slice_cmp nat_cmp a.text.now b.text.now) };

    ghost laws = { on_po (λ k. k.text.now) texts_po };

    fn partial_cmp(&self, other: &TextKey<'a>) -> Option<Ordering> {
        Some(self.cmp(other))
    }
}

impl<'a> Ord for TextKey<'a> {
    ghost cmp = { λ a b. slice_cmp nat_cmp a.text.now b.text.now };

    ghost total = { on_total (λ k. k.text.now) nat_list_cmp_total };

    ghost matches_partial_cmp = { Prim.search rules };

    ghost matches_eq = { λ a b. texts_ties a.text.now b.text.now };

    fn cmp(&self, other: &TextKey<'a>) -> Ordering {
        let leads = self.lead.cmp(&other.lead);
        if leads.is_ne() {
            return leads;
        }
        self.text.cmp(other.text)
    }
}

impl<'a> TextKey<'a> {
    /// The key of a text of at least eight bytes.
    pub(crate) fn of(text: &'a str) -> TextKey<'a>
        requires { 8 ≤ length text.now }
        ensures { result.text.now ≡ text.now }
    {
        TextKey {
            lead: lead(text.as_bytes()),
            text,
        }
    }
}

// The number that the first eight bytes write, the highest first.
fn lead(bytes: &[u8]) -> u64
    requires { 8 ≤ length bytes.now }
    ensures value { result ≡ number_of 0 (take 8 bytes.now) }
    ensures small { All (λ b. b < 256) (take 8 bytes.now) }
{
    u64::from_be_bytes([
        bytes[0], bytes[1], bytes[2], bytes[3], bytes[4], bytes[5], bytes[6], bytes[7],
    ])
}
