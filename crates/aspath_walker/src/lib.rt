// The route walker (AsPathRouteIter): a path's record and a route number, thin over the call for a
// route by its number.
#![tactic(auto)]

ghost use Rattle.std.specs.Prelude.{◌≡◌};
ghost use Rattle.aspath.specs.Segments.{path_of};
ghost use Rattle.aspath_routes.specs.Routes.{Routed};

use aspath::PathRecord;
use aspath_routes::RouteError;

#[derive(Clone, Copy)]
pub struct RouteWalker<'a> {
    pub path: PathRecord<'a>,
    pub number: u64,
}

impl<'a> RouteWalker<'a> {
    // A walker at the first route.
    pub fn new(path: PathRecord<'a>) -> RouteWalker<'a>
        ensures { (result.path ≡ path.entry) × (result.number ≡ 0) }
    {
        RouteWalker { path, number: 0 }
    }

    // The route at which the walker stands.
    pub fn next(self, out: &mut [u32]) -> Result<usize, RouteError>
        ensures { Routed (path_of self.entry.path) self.entry.number out.old result out.new }
    {
        aspath_routes::numbered_route(self.path, self.number, out)
    }

    // The walker at another route: to go on, the one behind.
    pub fn moved(self, number: u64) -> RouteWalker<'a>
        ensures { (result.path ≡ self.entry.path) × (result.number ≡ number) }
    {
        RouteWalker { number, ..self }
    }
}
