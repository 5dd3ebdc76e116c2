//! What is asked for, by the target of a request.
ghost use Rattle.std.specs.Prelude.{◌≡◌, ◌≢◌, ◌<◌, ◌^◌, ◌++◌, ℕ, List, decimal, IfOk, IfErr};
ghost use Rattle.std.specs.Prelude.{IfSome, IfNone};
ghost use Rattle.std.specs.Option.{ForSome};
ghost use Rattle.http_messages.specs.Route.{routes, route_text, IsRoute, IsRouteOf};
ghost use Rattle.http_messages.specs.Within.{pattern_of};
ghost use Rattle.register_requests.specs.Request.{IsKeyNumber};

use crate::asked::AskFault;
use matchit::{InsertError, Router};
use register_core::read_key_number;
use std::alloc::Global;
use std::str;

/// What a request is for.
#[derive(Clone, Copy, PartialEq, Eq)]
pub enum Route {
    Requests,
    Show(u32),
    Usage(u32),
}

impl Route {
    ghost use Rattle.std.specs.Prelude.{◌≡◌};
    ghost use Rattle.http_messages.specs.Route.{method_of};

    /// The method that the route takes.
    pub(crate) fn method(self) -> &'static str
        ensures { result.now ≡ method_of self }
    {
        match self {
            Route::Requests => "POST",
            Route::Show(_) | Route::Usage(_) => "GET",
        }
    }
}

/// A route without the number of its key: what the router keeps for each pattern.
#[derive(Clone, Copy)]
pub(crate) enum RoutePattern {
    Requests,
    Key,
    Usage,
}

/// The router of the three routes.
fn make_router(alloc: Global) -> Result<Router<RoutePattern>, InsertError>
    ensures { IfOk result (λ router. router ≡ routes) }
{
    let mut router = Router::new(alloc);
    router.insert("/requests", RoutePattern::Requests)?;
    router.insert("/keys/{n}", RoutePattern::Key)?;
    router.insert("/keys/{n}/usage", RoutePattern::Usage)?;
    Ok(router)
}

/// The router of the three routes, for one request after the other. It is made where it is first
/// needed, and made again where memory gave out.
#[derive(Drop)]
pub struct Routes {
    router: Option<Router<RoutePattern>>,
    ghost made: { ForSome router (λ r. r ≡ routes) },
}

impl Routes {
    ghost use Rattle.http_messages.specs.declared.asked.AskFault.{AskFault};

    /// No router yet. It takes no memory.
    pub fn new() -> Self {
        Routes { router: None }
    }

    /// The router, made where there is none.
    pub(crate) fn router_made_if_missing(
        &mut self,
        alloc: Global,
    ) -> Result<&Router<RoutePattern>, AskFault>
        ensures ok { IfOk result (λ router. router.now ≡ routes) }
        ensures err { IfErr result (λ fault. fault ≡ AskFault.Memory) }
    {
        if self.router.is_none() {
            let Ok(router) = make_router(alloc) else {
                return Err(AskFault::Memory);
            };
            self.router = Some(router);
        }
        self.router.as_ref().ok_or(AskFault::Memory)
    }
}

/// What stands between the prefix and the back.
fn field_between<'t>(target: &'t [u8], prefix: &[u8], back: &[u8]) -> Option<&'t [u8]>
    ensures found { IfSome result (λ field. target.now ≡ prefix.now ++ (field.now ++ back.now)) }
    ensures none { IfNone result ((field : List ℕ) →
        target.now ≢ prefix.now ++ (field ++ back.now)) }
{
    let rest = target.strip_prefix(prefix)?;
    rest.strip_suffix(back)
}

/// The number of a key that stands between the prefix and the back.
fn key_number_between(target: &[u8], prefix: &[u8], back: &[u8]) -> Option<u32>
    ensures found { IfSome result (λ n.
        (target.now ≡ prefix.now ++ (decimal n ++ back.now)) × IsKeyNumber n) }
    ensures none { IfNone result ((n : ℕ) → IsKeyNumber n →
        target.now ≢ prefix.now ++ (decimal n ++ back.now)) }
{
    let field = field_between(target, prefix, back)?;
    read_key_number(field)
}

/// The pattern to which the router leads the target.
fn pattern_of_target(router: &Router<RoutePattern>, target: &[u8]) -> Option<RoutePattern>
    requires { router.now ≡ routes }
    ensures { (r : Route) → IsRoute r → target.now ≡ route_text r → result ≡ Some (pattern_of r) }
{
    let Ok(text) = str::from_utf8(target) else {
        return None;
    };
    match router.at(text) {
        Ok(found) => Some(*found.value),
        Err(_) => None,
    }
}

/// The route of this pattern that the target spells.
fn route_of_pattern(pattern: RoutePattern, target: &[u8]) -> Option<Route>
    ensures found { IfSome result (λ r. IsRoute r × (target.now ≡ route_text r)) }
    ensures none { IfNone result ((r : Route) → IsRoute r → pattern_of r ≡ pattern →
        target.now ≢ route_text r) }
{
    match pattern {
        RoutePattern::Requests => {
            if target == b"/requests".as_slice() {
                Some(Route::Requests)
            } else {
                None
            }
        }
        RoutePattern::Key => {
            let key = key_number_between(target, b"/keys/", b"")?;
            Some(Route::Show(key))
        }
        RoutePattern::Usage => {
            let key = key_number_between(target, b"/keys/", b"/usage")?;
            Some(Route::Usage(key))
        }
    }
}

/// The route that the target spells.
pub(crate) fn route_of(router: &Router<RoutePattern>, target: &[u8]) -> Option<Route>
    requires { router.now ≡ routes }
    ensures { IsRouteOf target.now result }
{
    // The router takes any segment for a number: the text of the route alone decides.
    let pattern = pattern_of_target(router, target)?;
    route_of_pattern(pattern, target)
}
