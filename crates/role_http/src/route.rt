//! The one route of requests, `/v1/{function}`.
ghost use Rattle.std.specs.Prelude.{◌≡◌, IfOk, IfErr};
ghost use Rattle.role_http.specs.Route.{function_in, routes};

use matchit::Router;
use rbac_sets::Refusal;
use role_functions::Function;
use std::alloc::Global;

/// The router of the one route, `/v1/{function}`. Create it once, and pass it to each `answer_head`.
///
/// # Errors
///
/// `Memory` if allocation failed.
pub fn one_route(alloc: Global) -> Result<Router<()>, Refusal>
    ensures ok { IfOk result (λ router. router ≡ routes) }
    ensures cause { IfErr result (λ error. error ≡ Refusal.Memory) }
{
    let mut router = Router::new(alloc);
    let Ok(()) = router.insert("/v1/{function}", ()) else {
        return Err(Refusal::Memory);
    };
    Ok(router)
}

/// The function that a target names, or `None` if the target isn't UTF-8, isn't that of the route, or names no
/// function. It doesn't allocate.
pub(crate) fn function_of(router: &Router<()>, target: &[u8]) -> Option<Function>
    requires { router.now ≡ routes }
    ensures { result ≡ function_in target.now }
{
    let Ok(path) = str::from_utf8(target) else {
        return None;
    };
    let Ok(found) = router.at(path) else {
        return None;
    };
    let Some(name) = found.params.get("function") else {
        return None;
    };
    Function::from_name(name)
}
