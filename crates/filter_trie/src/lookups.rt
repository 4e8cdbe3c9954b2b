//! Pairs looked up at the filters that may match a name.

ghost use Rattle.std.specs.Prelude.{ℕ, List, [], map as map_list, IfOk, IsOk};
ghost use Rattle.std.specs.BTreeMap.{IsOrdered};
ghost use Rattle.std.specs.Ordering.{nat_cmp};
ghost use Rattle.std.specs.Cmp.Lexicographic.{slice_cmp};
ghost use Rattle.mqtt_topics.specs.Matching.{Matches};
ghost use Rattle.filter_trie.specs.Selected.{IsSelected};
ghost use Rattle.filter_trie.specs.Search.Branching.{Holds};

use crate::ends::Ends;
use mqtt_fields::NoMemory;
use mqtt_topics::{Filter, TopicName};
use std::alloc::Global;
use std::collections::BTreeMap;

/// The pairs whose filter matches the name, in the order of the filters' bytes, where each such filter is among the ends. It takes
/// memory only where one does.
pub(crate) fn at_ends<'a, V>(
    alloc: Global,
    pairs: &'a BTreeMap<Filter, V>,
    ends: &Ends,
    name: &TopicName,
) -> Result<Vec<(&'a Filter, &'a V)>, NoMemory>
    requires { (f : List ℕ) → Holds pairs.now.entries f → Matches f name.now → Holds ends.now.entries f }
    ensures pairs { IfOk result (λ out. IsSelected (λ e. Matches e.0 name.now) pairs.now.entries
        (map_list (λ r. (r.0.now, r.1.now)) out.items)) }
    ensures none { IsSelected (λ e. Matches e.0 name.now) pairs.now.entries [] → IsOk result }
    ensures ordered { IsOrdered (slice_cmp nat_cmp) pairs.now }
{
    // Its contract tells that the filters are in order.
    let _ = pairs.len();
    let mut out = Vec::new(alloc);
    for (end, _) in ends {
        let Some((filter, value)) = pairs.get_key_value(end) else {
            continue;
        };
        if !filter.matches(name) {
            continue;
        }
        out.push((filter, value))?;
    }
    Ok(out)
}
