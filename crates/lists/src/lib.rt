// Laws on lists, sums, counts, masks and bits that any crate cites. They are in specs/; there is no code here.
#![tactic(auto)]
