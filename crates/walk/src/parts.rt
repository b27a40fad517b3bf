use walk_laws::View;

/// All that a closed walk held.
#[derive(Drop)]
pub struct Parts<P, R, M, V> {
    pub matroid: P,
    pub rule: R,
    pub measure: M,
    pub view: View<V>,
}
