// Looking up a function and a site. No call takes memory.
ghost use Rattle.std.specs.Prelude.{◌≡◌, map};
ghost use Rattle.std.specs.Option.{option_copied};
ghost use Rattle.graph_data.specs.Parts.{Ascends};
ghost use Rattle.graph_data.specs.Lookup.{site_at, function_at};

use crate::graph::{Function, Graph, Site};

impl Function {
    /// The first site with the address; `None` exactly where there is none. It looks at one site after the other.
    pub fn site(&self, addr: u64) -> Option<&Site>
        ensures { option_copied result ≡ site_at self.now addr }
    {
        self.sites.as_slice().iter().find(|site| site.addr == addr)
    }

    /// The site with the address; `None` exactly where there is none. The sites must ascend by
    /// address, as those of a well-formed graph do; it looks at few of them.
    pub fn site_in_order(&self, addr: u64) -> Option<&Site>
        requires { Ascends (map (λ s. s.addr) self.now.sites) }
        ensures { option_copied result ≡ site_at self.now addr }
    {
        let sites = self.sites.as_slice();
        match sites.binary_search_by_key(&addr, |site| site.addr) {
            Ok(at) => Some(&sites[at]),
            Err(_) => None,
        }
    }
}

impl Graph {
    /// The first function with the entry; `None` exactly where there is none. It looks at one function after the
    /// other.
    pub fn function(&self, entry: u64) -> Option<&Function>
        ensures { option_copied result ≡ function_at self.now entry }
    {
        self.functions
            .as_slice()
            .iter()
            .find(|function| function.entry == entry)
    }

    /// The function with the entry; `None` exactly where there is none. The functions must ascend
    /// by entry, as those of a well-formed graph do; it looks at few of them.
    pub fn function_in_order(&self, entry: u64) -> Option<&Function>
        requires { Ascends (map (λ f. f.entry) self.now.functions) }
        ensures { option_copied result ≡ function_at self.now entry }
    {
        let functions = self.functions.as_slice();
        match functions.binary_search_by_key(&entry, |function| function.entry) {
            Ok(at) => Some(&functions[at]),
            Err(_) => None,
        }
    }
}
