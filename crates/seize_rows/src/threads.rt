//! What threads share, and what goes from one to another: each function here is proved where its types allow that. None of them is called.

use seize::{
    Collector, GuardCore, Owned, OwnedGuard, Pass, Reclaim, Registration, Shared, Unlinked,
};

fn is_sent<T: Send>(value: T) -> T {
    value
}

fn is_shared<T: Sync>(value: &T) -> &T {
    value
}

fn collector_sends<T: Drop + Send + Sync, R: Reclaim<T> + Send + Sync>(
    collector: Collector<T, R>,
) -> Collector<T, R> {
    is_sent(collector)
}

fn collector_shares<T: Drop + Send + Sync, R: Reclaim<T> + Send + Sync>(
    collector: &Collector<T, R>,
) -> &Collector<T, R> {
    is_shared(collector)
}

fn owned_sends<T: Drop + Send>(owned: Owned<T>) -> Owned<T> {
    is_sent(owned)
}

fn unlinked_sends<T: Drop + Send + Sync>(unlinked: Unlinked<'_, T>) -> Unlinked<'_, T> {
    is_sent(unlinked)
}

fn shared_sends<'g, T: Sync>(shared: Shared<'g, T>) -> Shared<'g, T> {
    is_sent(shared)
}

fn registration_sends<T: Drop + Send + Sync, R: Reclaim<T> + Send + Sync>(
    registration: Registration<'_, T, R>,
) -> Registration<'_, T, R> {
    is_sent(registration)
}

fn owned_guard_sends<T: Drop + Send + Sync, R: Reclaim<T> + Send + Sync>(
    guard: OwnedGuard<'_, T, R>,
) -> OwnedGuard<'_, T, R> {
    is_sent(guard)
}

fn owned_guard_shares<'g, 'c, T: Drop + Send + Sync, R: Reclaim<T> + Send + Sync>(
    guard: &'g OwnedGuard<'c, T, R>,
) -> &'g OwnedGuard<'c, T, R> {
    is_shared(guard)
}

fn core_shares<'g, 'c, T: Drop + Send + Sync, R: Reclaim<T> + Send + Sync>(
    core: &'g GuardCore<'c, T, R>,
) -> &'g GuardCore<'c, T, R> {
    is_shared(core)
}

fn pass_sends(pass: Pass<'_>) -> Pass<'_> {
    is_sent(pass)
}
