// Laws of lists, of rows in an array and of padded arrays, for any element: read specs/.
#![tactic(auto)]
